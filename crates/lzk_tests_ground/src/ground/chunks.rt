//! Work in chunks, done by the caller alone.

ghost use Rattle.std.specs.Prelude.{◌<◌, ◌≤◌};

use lzk_work_alone::{Alone, for_each_chunk_mut};

// Sets each of the first `len` of seven numbers to the place where its chunk begins.
fn begins_of(len: usize, size: usize) -> [usize; 7]
    requires within { len ≤ 7 }
    requires some { 0 < size }
{
    let mut list = [9; 7];
    let begin = |start: usize, chunk: &mut [usize]| {
        for i in 0..chunk.len() {
            chunk[i] = start;
        }
    };
    for_each_chunk_mut(&Alone, &mut list[..len], size, &begin);
    list
}

#[test]
fn chunks_know_where_they_begin(rt: HostRuntime) {
    assert!(rt; begins_of(7, 3) == [0, 0, 0, 3, 3, 3, 6]);
    assert!(rt; begins_of(6, 3) == [0, 0, 0, 3, 3, 3, 9]);
    assert!(rt; begins_of(7, 1) == [0, 1, 2, 3, 4, 5, 6]);
    assert!(rt; begins_of(2, 5) == [0, 0, 9, 9, 9, 9, 9]);
    assert!(rt; begins_of(0, 5) == [9, 9, 9, 9, 9, 9, 9]);
}
