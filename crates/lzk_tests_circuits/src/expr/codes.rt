//! Sources as code: the words of a text, those of its printed text, and the texts that are refused, by an independent
//! implementation.

use lzk_expr::{Code, FieldId, Source, SourceError, SourceFault, SourceKind, Word, read};
use lzk_source::{code_of, parse};
use std::alloc::{AllocError, Global};

// The largest text that may be read.
const LIMIT: usize = 4_194_304;

// A text, its field, how many public and private inputs it has, its words, and those of its printed text.
type CodeRow<'a> = (&'a [u8], FieldId, u32, u32, &'a [u8], &'a [u8]);

const CODES: [CodeRow<'_>; 5] = [
    (
        b"field goldilocks\npublic y\nprivate x\nassert (x) * x = y # square\n",
        FieldId::Goldilocks,
        1,
        1,
        b"(x0)*x0=y0.",
        b"x0*x0=y0.",
    ),
    (
        b"field goldilocks\nprivate a b\npublic p\tq\nlet t = a * (b - 0x10)\nlet u = -(t * t) + -p\n\
            assert (t + u) - (q * 007) = ((a))\n",
        FieldId::Goldilocks,
        2,
        2,
        b"x0*(x1-#16);-(t0*t0)+-y0;(t0+t1)-(y1*#7)=((x0)).",
        b"x0*(x1-#16);-(t0*t0)+-y0;(t0+t1)-y1*#7=x0.",
    ),
    (
        b"field gf2_128\npublic y\n\n  assert y*-y--(y*y) = 0xffffffffffffffffffffffffffffffff # x\nprivate z\n\
            assert -(-z) = (y - z)*(y*z)*z\n",
        FieldId::Gf2_128,
        1,
        1,
        b"y0*-y0--(y0*y0)=#340282366920938463463374607431768211455.-(-x0)=(y0-x0)*(y0*x0)*x0.",
        b"y0*-y0--(y0*y0)=#340282366920938463463374607431768211455.-(-x0)=(y0-x0)*(y0*x0)*x0.",
    ),
    (
        b"\t\r\nfield gf2_128\nprivate x\nlet a = x\nlet b = (a) * ((a * a) * a)\n\
            assert 0 = 000 - b - 1*1\npublic late",
        FieldId::Gf2_128,
        1,
        1,
        b"x0;(t0)*((t0*t0)*t0);#0=#0-t1-#1*#1.",
        b"x0;t0*((t0*t0)*t0);#0=#0-t1-#1*#1.",
    ),
    (
        b"field goldilocks\nassert 1 = 18446744069414584320 + 1 + 1",
        FieldId::Goldilocks,
        0,
        0,
        b"#1=#18446744069414584320+#1+#1.",
        b"#1=#18446744069414584320+#1+#1.",
    ),
];

const REFUSED: [(&[u8], u32, SourceKind); 21] = [
    (
        b"field goldilocks\nprivate x\nassert x = 1 ?\n",
        3,
        SourceKind::Character,
    ),
    (
        b"field goldilocks\nprivate x\nassert x = 1 # ?\nlet a = x @ x\n",
        4,
        SourceKind::Character,
    ),
    (
        b"field goldilocks\nprivate x\nassert x = \n",
        3,
        SourceKind::Syntax,
    ),
    (
        b"field goldilocks\nprivate x\nassert x * (x + 1 = 2\n",
        3,
        SourceKind::Syntax,
    ),
    (
        b"field goldilocks\nprivate x\nassert = 2\n",
        3,
        SourceKind::Syntax,
    ),
    (
        b"field goldilocks\nprivate x\nlet a x\n",
        3,
        SourceKind::Syntax,
    ),
    (b"field mersenne\n", 1, SourceKind::Syntax),
    (
        b"field goldilocks\nprivate x\n\nassume x = 1\n",
        4,
        SourceKind::Keyword,
    ),
    (
        b"field goldilocks\nprivate x\nassert x = z\n",
        3,
        SourceKind::Unknown,
    ),
    (
        b"field goldilocks\nprivate x\nlet a = a\n",
        3,
        SourceKind::Unknown,
    ),
    (
        b"field goldilocks\nprivate x\npublic y x\n",
        3,
        SourceKind::Twice,
    ),
    (
        b"field goldilocks\nprivate x\nprivate x2 x2\n",
        3,
        SourceKind::Twice,
    ),
    (
        b"field goldilocks\nprivate x\nfield gf2_128\n",
        3,
        SourceKind::Twice,
    ),
    (
        b"field goldilocks\nprivate x\nassert x = 18446744069414584321\n",
        3,
        SourceKind::TooLarge,
    ),
    (
        b"field gf2_128\nprivate x\nassert x = 0x100000000000000000000000000000000\n",
        3,
        SourceKind::TooLarge,
    ),
    (
        b"private x\nfield goldilocks\nassert x = 1\n",
        1,
        SourceKind::NoField,
    ),
    (b"", 1, SourceKind::NoField),
    (b"\n# nothing\n", 3, SourceKind::NoField),
    (b"field goldilocks\nprivate x\n", 3, SourceKind::NoAssert),
    (
        b"field goldilocks\nprivate x\nlet a = x * x\n",
        4,
        SourceKind::NoAssert,
    ),
    (
        b"field goldilocks\nprivate x\nprivate abcdefghijklmnopqrstuvwxyz_123456\nassert x = 1\n",
        3,
        SourceKind::Limit,
    ),
];

// The letter or sign of a word.
fn sign_of(word: Word) -> u8 {
    match word {
        Word::Number(_) => b'#',
        Word::Public(_) => b'y',
        Word::Private(_) => b'x',
        Word::Named(_) => b't',
        Word::Plus => b'+',
        Word::Minus => b'-',
        Word::Times => b'*',
        Word::Open => b'(',
        Word::Close => b')',
        Word::Define => b';',
        Word::Left => b'=',
        Word::Right => b'.',
    }
}

// The number of a word: that of its input or let name, or the one that stands at its place.
fn number_of(word: Word, numbers: &[u128]) -> Option<u128> {
    match word {
        Word::Number(i) => numbers.get(i as usize).copied(),
        Word::Public(i) => Some(i as u128),
        Word::Private(i) => Some(i as u128),
        Word::Named(i) => Some(i as u128),
        _ => None,
    }
}

// Appends a word.
fn push_word(
    alloc: Global,
    word: Word,
    numbers: &[u128],
    text: &mut Vec<u8>,
) -> Result<(), AllocError> {
    text.push(sign_of(word))?;
    if let Some(n) = number_of(word, numbers) {
        let digits = n.to_string(alloc)?;
        text.extend_from_slice(digits.as_bytes())?;
    }
    Ok(())
}

// The words of code as a text: each is a letter or a sign, with its number.
fn written(alloc: Global, code: &Code) -> Result<Vec<u8>, AllocError> {
    let mut text = Vec::new(alloc);
    for word in code.words() {
        push_word(alloc, *word, code.numbers(), &mut text)?;
    }
    Ok(text)
}

/// Whether code has so many inputs, and these words.
pub fn is_code(alloc: Global, code: &Code, publics: u32, privates: u32, words: &[u8]) -> bool {
    match written(alloc, code) {
        Ok(text) => {
            text.as_slice() == words && code.publics() == publics && code.privates() == privates
        }
        Err(_) => false,
    }
}

// Whether a row's text is read as its code.
fn is_read(alloc: Global, row: &CodeRow<'_>) -> bool {
    if row.0.len() > LIMIT {
        return false;
    }
    match read(alloc, row.0) {
        Ok(code) => code.field() == row.1 && is_code(alloc, &code, row.2, row.3, row.4),
        Err(_) => false,
    }
}

// Whether a source has the code of a row's printed text.
fn is_coded(alloc: Global, source: &Source, row: &CodeRow<'_>) -> bool {
    match code_of(alloc, source) {
        Ok(code) => code.field() == row.1 && is_code(alloc, &code, row.2, row.3, row.5),
        Err(_) => false,
    }
}

// Whether the source of a row's text has the code of its printed text.
fn is_coded_from_trees(alloc: Global, row: &CodeRow<'_>) -> bool {
    if row.0.len() > LIMIT {
        return false;
    }
    match parse(alloc, row.0) {
        Ok(source) => is_coded(alloc, &source, row),
        Err(_) => false,
    }
}

// The first row that is not read as its code, or has another one from its trees.
fn first_of_other_code(alloc: Global, rows: &[CodeRow<'_>]) -> Option<usize> {
    for (i, row) in rows.iter().enumerate() {
        if !is_read(alloc, row) || !is_coded_from_trees(alloc, row) {
            return Some(i);
        }
    }
    None
}

// Why a text has no code.
fn refusal(alloc: Global, text: &[u8]) -> Option<SourceFault> {
    if text.len() > LIMIT {
        return None;
    }
    match read(alloc, text) {
        Ok(_) => None,
        Err(SourceError::Fault(fault)) => Some(fault),
        Err(SourceError::OutOfMemory) => None,
    }
}

// The first row that is not refused so.
fn first_of_other_fault(alloc: Global, rows: &[(&[u8], u32, SourceKind)]) -> Option<usize> {
    for (i, (text, line, kind)) in rows.iter().enumerate() {
        let wanted = SourceFault {
            line: *line,
            kind: *kind,
        };
        if refusal(alloc, text) != Some(wanted) {
            return Some(i);
        }
    }
    None
}

#[test]
fn sources_have_their_code(rt: HostRuntime) {
    assert_eq!(rt; first_of_other_code(rt.alloc(), &CODES), None);
}

#[test]
fn texts_that_are_no_source_have_no_code(rt: HostRuntime) {
    assert_eq!(rt; first_of_other_fault(rt.alloc(), &REFUSED), None);
}
