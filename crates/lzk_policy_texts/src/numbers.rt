//! Numbers in decimal digits.

ghost use Rattle.std.specs.Prelude.{◌≡◌, ◌++◌, [], ◌∷◌, map, IfOk, OnOk, string_bytes};
ghost use Rattle.std.specs.Fmt.{decimal};
ghost use Rattle.lzk_goldilocks.specs.Elements.{number};
ghost use Rattle.lzk_policy_texts.specs.Numbers.{number_lines};

use lzk_field::Field;
use lzk_goldilocks::Gold;
use std::alloc::{AllocError, Global};

fn push_number(text: &mut String, number: u128) -> Result<(), AllocError>
    ensures { OnOk result (string_bytes text.new ≡ string_bytes text.old ++ (decimal number ++ 10 ∷ [])) }
{
    write!(text, "{number}\n")
}

/// Numbers in decimal digits, one a line.
pub fn number_text(alloc: Global, elements: &[Gold]) -> Result<String, AllocError>
    ensures { IfOk result (λ s. string_bytes s ≡ number_lines (map number elements.now)) }
{
    let mut text = String::new(alloc);
    for element in elements {
        push_number(&mut text, element.number())?;
    }
    Ok(text)
}
