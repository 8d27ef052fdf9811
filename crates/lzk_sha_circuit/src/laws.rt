//! Laws of the definitions, as contracts of a function that does nothing.

ghost use Rattle.std.specs.Prelude.{◌≡◌, ◌∷◌, [], ℕ, ◌≤◌, List, length};
ghost use Rattle.lzk_goldilocks.specs.Elements.{ops, of_number};
ghost use Rattle.lzk_goldilocks.specs.declared.element.Gold.{Gold};
ghost use Rattle.lzk_sha_circuit.specs.Circuits.{MessagesSatisfy, SomeCompressionCircuit, SomeShaCircuit};
ghost use Rattle.lzk_sha_circuit.specs.Compression.{FoundIsCompressed, SatisfiedIsCompression, IsSatisfiedExactly};
ghost use Rattle.lzk_sha_circuit.specs.Places.{private_count};
ghost use Rattle.lzk_sha_circuit.specs.Outputs.{AreSatisfying};
ghost use Rattle.lzk_sha_circuit.specs.Digest.{AreBytes, HaveDigest};

/// Where all outputs are 0, the private inputs begin with the bits of a message, and the public inputs are the words of
/// its digest.
pub fn digest_laws()
    ensures { (len : ℕ) (public private : List Gold) → len ≤ 55 → length public ≡ 8 → length private ≡ private_count len
        → AreSatisfying ops of_number len public private
        → (message : List ℕ) × (length message ≡ len) × AreBytes message × HaveDigest of_number public private message }
{}

/// Where all outputs of a compression's circuit are 0, its private inputs are bits, and the public inputs are the words
/// of the state behind the block that it finds; such inputs are there for every state and block; and so is a circuit,
/// whether or not there is memory for it.
pub fn compression_laws()
    ensures found { FoundIsCompressed ops of_number }
    ensures satisfied { SatisfiedIsCompression ops of_number }
    ensures exactly { IsSatisfiedExactly ops of_number }
    ensures some { SomeCompressionCircuit }
{}

/// There is a circuit for messages of each number of bytes, whether or not there is memory for it, and every message
/// satisfies it.
pub fn circuit_laws()
    ensures some { SomeShaCircuit }
    ensures satisfied { MessagesSatisfy }
{}
