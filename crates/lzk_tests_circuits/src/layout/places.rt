//! Where each layer's elements and pads stand, and the copies of the factors, as an independent implementation has
//! them; and digests that are written into a path's room.

ghost use Rattle.std.specs.Prelude.{◌≡◌};

use crate::layout::parameters::circuit;
use lzk_circuit::Circuit;
use lzk_field::Field;
use lzk_gf128::Gf128;
use lzk_goldilocks::Gold;
use lzk_layout::{LayerPlaces, Params, Path, layer_bits, most_bits};
use std::alloc::{AllocError, Global};
use std::test::Fail;

fn listed(p: &LayerPlaces) -> [u32; 5] {
    [p.bits, p.messages, p.factors_sent, p.pads, p.factors]
}

// The first layer that has other places, or the number of layers where the last one's do not end the lists.
fn wrong_places<F: Field>(circuit: &Circuit<F>, table: &[[u32; 5]]) -> Option<usize> {
    let params = Params::of(circuit);
    let mut places = LayerPlaces::first(circuit);
    for l in 0..circuit.depth() {
        let i = l as usize;
        if i >= table.len() || listed(&places) != table[i] {
            return Some(i);
        }
        places = places.next(circuit, l);
    }
    if places.messages != params.nsum || places.pads != params.nw {
        return Some(table.len());
    }
    None
}

// The same for one public input, eight private ones, and layers of 1, 3 and 17 wires.
fn wrong_layers<F: Field>(alloc: Global) -> Result<Option<usize>, AllocError> {
    let Some(circuit) = circuit::<F>(alloc, (1, 8, &[1, 3, 17], 0))? else {
        return Ok(Some(3));
    };
    let table = [[2, 0, 8, 8, 16], [5, 10, 30, 19, 39], [4, 32, 48, 42, 58]];
    Ok(wrong_places(&circuit, &table))
}

#[test]
fn layers_have_their_places(rt: HostRuntime) -> Result<(), Fail> {
    assert_eq!(rt; wrong_layers::<Gold>(rt.alloc())?, None);
    assert_eq!(rt; wrong_layers::<Gf128>(rt.alloc())?, None);
    Ok(())
}

// Whether layers of 1, 3 and 17 wires over ten inputs have these bits, and the most of them.
fn are_bits<F: Field>(alloc: Global) -> Result<bool, AllocError> {
    let Some(circuit) = circuit::<F>(alloc, (1, 8, &[1, 3, 17], 0))? else {
        return Ok(false);
    };
    let bits = [0, 2, 5, 4];
    let mut are = circuit.depth() == 3 && most_bits(&circuit) == 5;
    for l in 0..circuit.depth() + 1 {
        are = are && layer_bits(&circuit, l) == bits[l as usize % 4];
    }
    Ok(are)
}

#[test]
fn layers_have_their_bits(rt: HostRuntime) -> Result<(), Fail> {
    assert!(rt; are_bits::<Gold>(rt.alloc())?);
    assert!(rt; are_bits::<Gf128>(rt.alloc())?);
    Ok(())
}

#[test]
fn copies_have_their_places(rt: HostRuntime) -> Result<(), Fail> {
    let circuit = circuit::<Gold>(rt.alloc(), (1, 1, &[1], 129))?;
    assert!(rt; circuit.is_some());
    if let Some(circuit) = circuit {
        let params = Params::of(&circuit);
        let table = [
            (0, 18, 0),
            (191, 20, 63),
            (192, 21, 0),
            (193, 22, 0),
            (383, 23, 63),
            (384, 24, 0),
            (389, 26, 1),
        ];
        for i in 0..table.len() {
            let (m, row, position) = table[i];
            assert!(rt; m < 3 * params.layers && params.copy_place(m) == (row, position));
        }
    }
    Ok(())
}

#[test]
fn digests_are_written_into_a_path(rt: HostRuntime) -> Result<(), Fail> {
    let mut path = Path::with_room(rt.alloc(), 4)?;
    path.push([1; 32]);
    path.push([2; 32]);
    {
        let room = path.room_mut();
        room[1] = [7; 32];
        room[2] = [9; 32];
    }
    assert_eq!(rt; path.len(), 2);
    assert_eq!(rt; path.room(), 4);
    assert!(rt; path.as_slice() == [[1; 32], [7; 32]].as_slice());
    Ok(())
}
