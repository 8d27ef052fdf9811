//! Sums over the places of words, as products.

ghost use Rattle.std.specs.Prelude.{◌≡◌, ℕ, ◌+◌, ◌++◌, OnOk};
ghost use Rattle.lzk_goldilocks.specs.Elements.{ops, of_number};
ghost use Rattle.lzk_sha_circuit.specs.Products.{worth_list, or_word_list, ch_word_list, maj_word_list};
ghost use Rattle.lzk_sha_circuit.specs.Found.{places_of};
ghost use Rattle.lzk_sha_circuit.specs.Layers.{word_entry, bits_entry, wire_entry, moved_entry, carry_list};

use crate::entries::{Move, bits_entry, entry, moved_entry, wire_entry};
use crate::given::Given;
use crate::placed::{Carried, Ors, Placed, Row};
use crate::products::{Product, chosen_of, linear, most_of, or_of, power};
use lzk_field::Field;
use lzk_goldilocks::Gold;
use std::alloc::AllocError;

// What a word is worth, times a scale.
pub(crate) fn push_worth(
    given: &Given,
    scale: Gold,
    word: Placed,
    products: &mut Vec<Product<Gold>>,
) -> Result<(), AllocError>
    ensures { OnOk result (products.new.items
        ≡ products.old.items
        ++ worth_list ops of_number scale 32 (word_entry ops of_number (places_of given.now) word.word)) }
{
    for i in 0..32 {
        products.push(linear(scale.mul(power(i)), entry(given, word, i)))?;
    }
    Ok(())
}

// What private inputs in a row are worth, times a scale.
pub(crate) fn push_row_worth(
    scale: Gold,
    row: Row,
    products: &mut Vec<Product<Gold>>,
) -> Result<(), AllocError>
    ensures { OnOk result (products.new.items
        ≡ products.old.items ++ worth_list ops of_number scale row.count (bits_entry ops row.place row.count)) }
{
    for i in 0..row.count {
        products.push(linear(scale.mul(power(i)), bits_entry(row, i)))?;
    }
    Ok(())
}

// What a word is worth that is the exclusive or of 32 wires and a word whose places move.
pub(crate) fn push_or_word(
    given: &Given,
    ors: Ors,
    word: Placed,
    by: Move,
    products: &mut Vec<Product<Gold>>,
) -> Result<(), AllocError>
    ensures { OnOk result (products.new.items
        ≡ products.old.items ++ or_word_list ops of_number (λ i. wire_entry ops (ors.first + i))
        (moved_entry ops of_number (places_of given.now) word.word by)) }
{
    for i in 0..32 {
        let x = wire_entry(ors.first + i);
        let y = moved_entry(given, word, by, i);
        products.extend_from_slice(&or_of(power(i), x, y))?;
    }
    Ok(())
}

// What Ch of three words is worth.
pub(crate) fn push_ch(
    given: &Given,
    e: Placed,
    f: Placed,
    g: Placed,
    products: &mut Vec<Product<Gold>>,
) -> Result<(), AllocError>
    ensures { OnOk result (products.new.items
        ≡ products.old.items ++ ch_word_list ops of_number (word_entry ops of_number (places_of given.now) e.word)
        (word_entry ops of_number (places_of given.now) f.word)
        (word_entry ops of_number (places_of given.now) g.word)) }
{
    for i in 0..32 {
        let (e, f, g) = (entry(given, e, i), entry(given, f, i), entry(given, g, i));
        products.extend_from_slice(&chosen_of(power(i), e, f, g))?;
    }
    Ok(())
}

// What Maj of three words is worth, where 32 wires are the exclusive or of the first two.
pub(crate) fn push_maj(
    given: &Given,
    x: Placed,
    y: Placed,
    z: Placed,
    ors: Ors,
    products: &mut Vec<Product<Gold>>,
) -> Result<(), AllocError>
    ensures { OnOk result (products.new.items
        ≡ products.old.items ++ maj_word_list ops of_number (word_entry ops of_number (places_of given.now) x.word)
        (word_entry ops of_number (places_of given.now) y.word)
        (word_entry ops of_number (places_of given.now) z.word)
        (λ i. wire_entry ops (ors.first + i))) }
{
    for i in 0..32 {
        let (x, y, z) = (entry(given, x, i), entry(given, y, i), entry(given, z, i));
        let u = wire_entry(ors.first + i);
        products.extend_from_slice(&most_of(power(i), x, y, z, u))?;
    }
    Ok(())
}

// Less a word, and 2^32 times its carry.
pub(crate) fn push_carry(word: Carried, products: &mut Vec<Product<Gold>>) -> Result<(), AllocError>
    ensures { OnOk result (products.new.items ≡ products.old.items ++ carry_list ops of_number word.place word.bits) }
{
    let Carried { place, bits } = word;
    push_row_worth(Gold::one().neg(), Row { place, count: 32 }, products)?;
    let carry = Row {
        place: place + 32,
        count: bits,
    };
    push_row_worth(power(32).neg(), carry, products)
}
