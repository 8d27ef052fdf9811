//! The lines that a run prints.

ghost use Rattle.std.specs.Prelude.{◌≡◌, ◌++◌, IfOk, OnOk, codes, string_bytes};
ghost use Rattle.std.specs.Option.{option_copied};
ghost use Rattle.hex.specs.Hex.{encode_lower};
ghost use Rattle.lzk_cmd_files.specs.Lines as lines;

use lzk_circbytes::{ByteFault, ByteKind};
use lzk_circuit::{MOST_IN_ALL, MOST_LAYERS, MOST_WIRES};
use lzk_expr::{NumberFault, NumberKind, SourceFault, SourceKind};
use lzk_level::LevelFault;
use std::alloc::{AllocError, Global};

/// The line that refuses words that are no command.
pub fn refuse_words(alloc: Global) -> Result<String, AllocError>
    ensures { IfOk result (λ s. string_bytes s ≡ lines.words_line) }
{
    "refused: words\n".to_string(alloc)
}

/// The line of a file that is missing.
pub fn tell_missing(alloc: Global, name: &str) -> Result<String, AllocError>
    ensures { IfOk result (λ s. string_bytes s ≡ lines.missing_line name.now) }
{
    format!(in alloc; "refused: {name} is missing\n")
}

/// The line of a file that is larger than a limit.
pub fn tell_larger(alloc: Global, name: &str, limit: usize) -> Result<String, AllocError>
    ensures { IfOk result (λ s. string_bytes s ≡ lines.larger_line name.now limit) }
{
    format!(in alloc; "refused: {name} is larger than {limit} bytes\n")
}

/// The line of a file whose read failed.
pub fn tell_reading(alloc: Global, name: &str) -> Result<String, AllocError>
    ensures { IfOk result (λ s. string_bytes s ≡ lines.reading_line name.now) }
{
    format!(in alloc; "fault: reading {name}\n")
}

/// The line of a file whose put failed.
pub fn tell_writing(alloc: Global, name: &str) -> Result<String, AllocError>
    ensures { IfOk result (λ s. string_bytes s ≡ lines.writing_line name.now) }
{
    format!(in alloc; "fault: writing {name}\n")
}

fn byte_kind_name(kind: ByteKind) -> &'static str
    ensures { result.now ≡ lines.byte_kind_name kind }
{
    match kind {
        ByteKind::Truncated => "Truncated",
        ByteKind::Magic => "Magic",
        ByteKind::FieldId => "FieldId",
        ByteKind::Limit => "Limit",
        ByteKind::Varint => "Varint",
        ByteKind::Order => "Order",
        ByteKind::Range => "Range",
        ByteKind::Constant => "Constant",
        ByteKind::Trailing => "Trailing",
        ByteKind::Assertion => "Assertion",
    }
}

fn number_kind_name(kind: NumberKind) -> &'static str
    ensures { result.now ≡ lines.number_kind_name kind }
{
    match kind {
        NumberKind::Syntax => "Syntax",
        NumberKind::TooLarge => "TooLarge",
        NumberKind::TooFew => "TooFew",
        NumberKind::TooMany => "TooMany",
    }
}

fn source_kind_name(kind: SourceKind) -> &'static str
    ensures { result.now ≡ lines.source_kind_name kind }
{
    match kind {
        SourceKind::Character => "Character",
        SourceKind::Syntax => "Syntax",
        SourceKind::Keyword => "Keyword",
        SourceKind::Unknown => "Unknown",
        SourceKind::Twice => "Twice",
        SourceKind::TooLarge => "TooLarge",
        SourceKind::NoField => "NoField",
        SourceKind::NoAssert => "NoAssert",
        SourceKind::Limit => "Limit",
    }
}

fn tell_line(alloc: Global, name: &str, line: u32, kind: &str) -> Result<String, AllocError>
    ensures { IfOk result (λ s. string_bytes s ≡ lines.text_line name.now line kind.now) }
{
    format!(in alloc; "refused: {name} at line {line}: {kind}\n")
}

/// The line that refuses the bytes of a circuit file.
pub fn refuse_circuit(alloc: Global, name: &str, fault: ByteFault) -> Result<String, AllocError>
    ensures { IfOk result
        (λ s. string_bytes s ≡ lines.byte_line name.now fault.offset (lines.byte_kind_name fault.kind)) }
{
    let offset = fault.offset;
    let kind = byte_kind_name(fault.kind);
    format!(in alloc; "refused: {name} at byte {offset}: {kind}\n")
}

/// The line that refuses the text of a number file.
pub fn refuse_numbers(alloc: Global, name: &str, fault: NumberFault) -> Result<String, AllocError>
    ensures { IfOk result
        (λ s. string_bytes s ≡ lines.text_line name.now fault.line (lines.number_kind_name fault.kind)) }
{
    tell_line(alloc, name, fault.line, number_kind_name(fault.kind))
}

/// The line that refuses the text of a source.
pub fn refuse_source(alloc: Global, name: &str, fault: SourceFault) -> Result<String, AllocError>
    ensures { IfOk result
        (λ s. string_bytes s ≡ lines.text_line name.now fault.line (lines.source_kind_name fault.kind)) }
{
    tell_line(alloc, name, fault.line, source_kind_name(fault.kind))
}

fn tell_limit(
    alloc: Global,
    name: &str,
    kind: &str,
    count: u64,
    limit: u32,
) -> Result<String, AllocError>
    ensures { IfOk result (λ s. string_bytes s ≡ lines.limit_line name.now kind.now count limit) }
{
    format!(in alloc; "refused: {name}: {kind} {count} over {limit}\n")
}

/// The line that refuses a source whose circuit passes a limit.
pub fn refuse_level(alloc: Global, name: &str, fault: LevelFault) -> Result<String, AllocError>
    ensures { IfOk result (λ s. string_bytes s ≡ lines.level_line name.now fault) }
{
    match fault {
        LevelFault::Layers(count) => tell_limit(alloc, name, "Layers", count, MOST_LAYERS),
        LevelFault::LayerWires(count) => tell_limit(alloc, name, "LayerWires", count, MOST_WIRES),
        LevelFault::Terms(count) => tell_limit(alloc, name, "Terms", count, MOST_IN_ALL),
    }
}

/// The line of a circuit whose file was put.
pub fn tell_compiled(
    alloc: Global,
    name: &str,
    layers: u32,
    terms: usize,
    bytes: usize,
) -> Result<String, AllocError>
    ensures { IfOk result (λ s. string_bytes s ≡ lines.compiled_line name.now layers terms bytes) }
{
    format!(in alloc; "compiled {name}: layers {layers}, terms {terms}, {bytes} bytes\n")
}

/// The line of a circuit that was put in version 2.
pub fn tell_upgraded(alloc: Global, name: &str, bytes: usize) -> Result<String, AllocError>
    ensures { IfOk result (λ s. string_bytes s ≡ lines.upgraded_line name.now bytes) }
{
    format!(in alloc; "upgraded {name}: {bytes} bytes\n")
}

// The line of a message's proof, by the digits of the digest.
fn tell_digits(alloc: Global, name: &str, digits: &str, bytes: usize) -> Result<String, AllocError>
    ensures { IfOk result (λ s. string_bytes s ≡ lines.digits_line name.now digits.now bytes) }
{
    format!(in alloc; "proved {name}: {bytes} bytes, digest {digits}\n")
}

// The line of a message's proof.
fn tell_hashed(alloc: Global, name: &str, digest: &[u8], bytes: usize) -> Result<String, AllocError>
    ensures { IfOk result (λ s. string_bytes s ≡ lines.hashed_line name.now digest.now bytes) }
{
    let digits = hex::encode(alloc, digest)?;
    tell_digits(alloc, name, &digits, bytes)
}

/// The line of a proof whose file was put, with the digest that it is of, if it is of one.
pub fn tell_proved(
    alloc: Global,
    name: &str,
    digest: Option<&[u8]>,
    bytes: usize,
) -> Result<String, AllocError>
    ensures { IfOk result (λ s. string_bytes s ≡ lines.told_line name.now (option_copied digest.entry) bytes) }
{
    match digest {
        None => format!(in alloc; "proved {name}: {bytes} bytes\n"),
        Some(digest) => tell_hashed(alloc, name, digest, bytes),
    }
}

/// The line that refuses a circuit for messages of other lengths.
pub fn refuse_unfit(alloc: Global, name: &str, len: usize) -> Result<String, AllocError>
    ensures { IfOk result (λ s. string_bytes s ≡ lines.unfit_line name.now len) }
{
    format!(in alloc; "refused: {name} is not for {len} bytes\n")
}

/// The line of a demo whose proof is accepted.
pub fn tell_demo(alloc: Global, n: u32, layers: u32, bytes: usize) -> Result<String, AllocError>
    ensures { IfOk result (λ s. string_bytes s ≡ lines.demo_line n layers bytes) }
{
    format!(in alloc; "demo {n}: layers {layers}, proof {bytes} bytes, accepted\n")
}

/// The line of the first check that is not 0.
pub fn tell_nonzero(alloc: Global, output: u32, value: u128) -> Result<String, AllocError>
    ensures { IfOk result (λ s. string_bytes s ≡ lines.nonzero_line output value) }
{
    format!(in alloc; "unsatisfied at output {output} = {value}\n")
}

/// Puts the line of check k behind a text.
pub fn push_output(text: &mut String, k: u32, value: u128) -> Result<(), AllocError>
    ensures { OnOk result (string_bytes text.new ≡ string_bytes text.old ++ lines.output_line k value) }
{
    write!(text, "output {k} = {value}\n")
}

/// Puts the line of checks that are all 0 behind a text.
pub fn push_satisfied(text: &mut String) -> Result<(), AllocError>
    ensures { OnOk result (string_bytes text.new ≡ string_bytes text.old ++ lines.satisfied_line) }
{
    text.push_str("satisfied\n")
}

/// Puts the line of the first check that is not 0 behind a text.
pub fn push_unsatisfied(text: &mut String, k: u32) -> Result<(), AllocError>
    ensures { OnOk result (string_bytes text.new ≡ string_bytes text.old ++ lines.unsatisfied_line k) }
{
    write!(text, "unsatisfied at output {k}\n")
}

fn push_pair(text: &mut String, key: &str, value: &str) -> Result<(), AllocError>
    ensures { OnOk result (string_bytes text.new ≡ string_bytes text.old ++ lines.pair_line key.now value.now) }
{
    write!(text, "{key} {value}\n")
}

fn push_count(text: &mut String, key: &str, count: u32) -> Result<(), AllocError>
    ensures { OnOk result (string_bytes text.new ≡ string_bytes text.old ++ lines.count_line key.now count) }
{
    write!(text, "{key} {count}\n")
}

// Puts the line of a circuit's version behind a text, where it is 2.
fn push_version(text: &mut String, version: u8) -> Result<(), AllocError>
    ensures { OnOk result (string_bytes text.new ≡ string_bytes text.old ++ lines.version_lines version) }
{
    if version == 2 {
        push_pair(text, "version", "2")
    } else {
        Ok(())
    }
}

// Puts the line of a circuit's id behind a text.
fn push_id(alloc: Global, text: &mut String, digest: &[u8]) -> Result<(), AllocError>
    ensures { OnOk result
        (string_bytes text.new ≡ string_bytes text.old ++ lines.pair_line (codes "id") (encode_lower digest.now)) }
{
    let digits = hex::encode(alloc, digest)?;
    push_pair(text, "id", &digits)
}

// Puts the lines of a circuit's counts behind a text.
fn push_counts(
    text: &mut String,
    publics: u32,
    privates: u32,
    layers: u32,
) -> Result<(), AllocError>
    ensures { OnOk result (string_bytes text.new
        ≡ string_bytes text.old ++ lines.count_line (codes "public") publics
        ++ lines.count_line (codes "private") privates ++ lines.count_line (codes "layers") layers) }
{
    push_count(text, "public", publics)?;
    push_count(text, "private", privates)?;
    push_count(text, "layers", layers)
}

/// The lines of a circuit's field, of its version where it is 2, and of its id and counts.
pub fn tell_counts(
    alloc: Global,
    field: &str,
    version: u8,
    digest: &[u8],
    publics: u32,
    privates: u32,
    layers: u32,
) -> Result<String, AllocError>
    ensures { IfOk result
        (λ s. string_bytes s ≡ lines.counts_lines field.now version digest.now publics privates layers) }
{
    let mut text = String::new(alloc);
    push_pair(&mut text, "field", field)?;
    push_version(&mut text, version)?;
    push_id(alloc, &mut text, digest)?;
    push_counts(&mut text, publics, privates, layers)?;
    Ok(text)
}

/// Puts the line of layer l behind a text.
pub fn push_layer(text: &mut String, l: u32, wires: u32, terms: usize) -> Result<(), AllocError>
    ensures { OnOk result (string_bytes text.new ≡ string_bytes text.old ++ lines.layer_line l wires terms) }
{
    write!(text, "layer {l}: wires {wires} terms {terms}\n")
}
