//! Laws of the definitions, as contracts of a function that does nothing.

ghost use Rattle.lzk_goldilocks.specs.Elements.{ops, of_number};
ghost use Rattle.lzk_sha_blocks.specs.Hashed.{HashingIsOfMessage, MessagesHash};

/// Where the circuit is satisfied, the private inputs begin with the bits of a message, and the public inputs are the
/// words of its digest; and every message has such inputs. The body does nothing.
pub fn hashing_laws()
    ensures message { HashingIsOfMessage ops of_number }
    ensures satisfied { MessagesHash ops of_number }
{}
