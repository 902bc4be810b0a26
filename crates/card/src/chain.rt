// The card's rule for the root's type (27), over the type records of a sheet that has been read.
ghost use Rattle.std.specs.Prelude.{◌≡◌};
ghost use Rattle.card.specs.Chains.{chain_in};

use records::Form;

// The type is a chain of sharable arrows that ends in a sharable type. A type refers to earlier ones, so 256 steps always do.
pub fn is_chain(records: &[u8], root: u8) -> bool
    ensures { result ≡ chain_in records.now 256 root }
{
    let mut t = root;
    for _ in 0..256usize {
        match records::type_at(records, t) {
            Form::Bit | Form::Product(_, _) => return true,
            Form::Linear(_, _) => return false,
            Form::Arrow(_, right) => t = right,
        }
    }
    false
}
