//! What a line says.

use crate::policy::{Claim, RecordField};
use lzk_expr::Name;

/// What a line of a policy says.
#[derive(Drop)]
pub(crate) enum Line {
    /// A record has so many bytes.
    Record(u32),
    /// It has this field.
    Field(RecordField),
    /// Its digest is shown.
    Digest,
    /// The root is shown that stands so many levels above its digest.
    Under(u32),
    /// This is shown of the field with this name.
    Show(Name, Claim),
}
