//! Printed sources, and the limit of names.

use crate::expr::prints::PRINTS;
use lzk_expr::{FieldId, SourceError, SourceFault, SourceKind};
use lzk_field::Field;
use lzk_goldilocks::Gold;
use lzk_source::{parse, print, values};
use std::alloc::{AllocError, Global};

// The largest text that may be read.
const LIMIT: usize = 4_194_304;

// The fault of a text, if it has one; and Limit at line 0 where it was not read.
fn fault_of(alloc: Global, text: &[u8]) -> Option<SourceFault> {
    let unread = Some(SourceFault {
        line: 0,
        kind: SourceKind::Limit,
    });
    if text.len() > LIMIT {
        return unread;
    }
    match parse(alloc, text) {
        Ok(_) => None,
        Err(SourceError::Fault(fault)) => Some(fault),
        Err(SourceError::OutOfMemory) => unread,
    }
}

// The printed text of a text's source.
fn printed(alloc: Global, text: &[u8]) -> Option<Vec<u8>> {
    if text.len() > LIMIT {
        return None;
    }
    let source = parse(alloc, text).ok()?;
    print(alloc, &source).ok()
}

// Whether a text's source is printed so.
fn prints_as(alloc: Global, text: &[u8], wanted: &[u8]) -> bool {
    match printed(alloc, text) {
        Some(found) => found.as_slice() == wanted,
        None => false,
    }
}

// The first row whose source is not printed so, or whose printed text is another source.
fn first_misprinted(alloc: Global, rows: &[(&[u8], &[u8])]) -> Option<usize> {
    for (i, row) in rows.iter().enumerate() {
        if !prints_as(alloc, row.0, row.1) || !prints_as(alloc, row.1, row.1) {
            return Some(i);
        }
    }
    None
}

// Left minus right for each assert of a text over Goldilocks, at these inputs.
fn values_at(alloc: Global, text: &[u8], public: &[Gold], private: &[Gold]) -> Option<Vec<Gold>> {
    if text.len() > LIMIT {
        return None;
    }
    let source = parse(alloc, text).ok()?;
    let fits = source.publics() as usize == public.len()
        && source.privates() as usize == private.len();
    if !fits {
        return None;
    }
    match source.field() {
        FieldId::Goldilocks => values(alloc, &source, public, private).ok(),
        FieldId::Gf2_128 => None,
    }
}

// A text of so many private names, each on its own line, and an assert.
fn private_names(alloc: Global, count: u32) -> Result<Vec<u8>, AllocError> {
    let mut text = Vec::new(alloc);
    text.extend_from_slice(b"field goldilocks\n")?;
    for i in 0..count {
        text.extend_from_slice(b"private x")?;
        let number = i.to_string(alloc)?;
        text.extend_from_slice(number.as_bytes())?;
        text.push(b'\n')?;
    }
    text.extend_from_slice(b"assert x0 = 1\n")?;
    Ok(text)
}

// A text whose third line has so many parentheses open, and then these bytes.
fn opened(alloc: Global, count: usize, behind: &[u8]) -> Result<Vec<u8>, AllocError> {
    let mut text = Vec::new(alloc);
    text.extend_from_slice(b"field goldilocks\nprivate x\nassert ")?;
    for _ in 0..count {
        text.push(b'(')?;
    }
    text.extend_from_slice(behind)?;
    Ok(text)
}

fn at(line: u32, kind: SourceKind) -> Option<SourceFault> {
    Some(SourceFault { line, kind })
}

#[test]
fn sources_are_printed(rt: HostRuntime) {
    assert_eq!(rt; first_misprinted(rt.alloc(), &PRINTS), None);
}

#[test]
fn values_are_left_minus_right(rt: HostRuntime) {
    let square =
        b"field goldilocks\npublic y\nprivate x\nlet z = x*x\nassert z = y\nassert y = 9\n";
    let three = [Gold::of_word(3)];
    for (y, wanted) in [(9, [0, 0]), (10, [18_446_744_069_414_584_320, 1])] {
        let found = match values_at(rt.alloc(), square, &[Gold::of_word(y)], &three) {
            Some(found) => found,
            None => Vec::new(rt.alloc()),
        };
        assert_eq!(rt; found.len(), 2);
        assert_eq!(rt; found.as_slice(), wanted.map(Gold::of_word).as_slice());
    }
}

#[test]
fn names_have_their_limit(rt: HostRuntime) -> Result<(), AllocError> {
    let most = private_names(rt.alloc(), 65_536)?;
    assert_eq!(rt; fault_of(rt.alloc(), &most), None);
    let more = private_names(rt.alloc(), 65_537)?;
    assert_eq!(rt; fault_of(rt.alloc(), &more), at(65_538, SourceKind::Limit));
    Ok(())
}

#[test]
fn a_byte_of_no_token_is_named_before_a_limit(rt: HostRuntime) -> Result<(), AllocError> {
    let deep = opened(rt.alloc(), 65, b"x = x")?;
    assert_eq!(rt; fault_of(rt.alloc(), &deep), at(3, SourceKind::Limit));
    let both = opened(rt.alloc(), 65, b"x = x ?")?;
    assert_eq!(rt; fault_of(rt.alloc(), &both), at(3, SourceKind::Character));
    let first = opened(rt.alloc(), 1, b"? = x")?;
    assert_eq!(rt; fault_of(rt.alloc(), &first), at(3, SourceKind::Character));
    let comment = opened(rt.alloc(), 65, b"x = x # ?")?;
    assert_eq!(rt; fault_of(rt.alloc(), &comment), at(3, SourceKind::Limit));
    Ok(())
}

#[test]
fn names_have_at_most_32_bytes(rt: HostRuntime) {
    let most =
        b"field goldilocks\nprivate abcdefghijklmnopqrstuvwxyz_12345\nassert abcdefghijklmnopqrstuvwxyz_12345 = 1\n";
    assert!(rt; prints_as(rt.alloc(), most, most));
    let more = b"field goldilocks\nprivate abcdefghijklmnopqrstuvwxyz_123456\nassert 0 = 1\n";
    assert_eq!(rt; fault_of(rt.alloc(), more), at(2, SourceKind::Limit));
}
