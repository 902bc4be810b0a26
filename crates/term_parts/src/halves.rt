// Terms that wait: the elements of a tuple, and pairs that are taken apart.
ghost use Rattle.std.specs.Prelude.{◌≡◌};
ghost use Rattle.term_parts.specs.Halves.{half_in, with_half, InHalves};

use making_memory::HALVES;

// A term's root, its type and its depth, and the offset of a comma or of a name.
#[derive(Clone, Copy)]
pub struct Half {
    pub node: u16,
    pub ty: u16,
    pub deep: u16,
    pub place: u16,
}

pub fn half_at(work: &[u16], i: usize) -> Half
    requires { InHalves work.now i }
    ensures { result ≡ half_in work.now i }
{
    let at = HALVES + 4 * i;
    Half {
        node: work[at],
        ty: work[at + 1],
        deep: work[at + 2],
        place: work[at + 3],
    }
}

pub fn put_half(work: &mut [u16], i: usize, h: Half)
    requires { InHalves work.old i }
    ensures { work.new ≡ with_half work.old i h }
{
    let at = HALVES + 4 * i;
    work[at] = h.node;
    work[at + 1] = h.ty;
    work[at + 2] = h.deep;
    work[at + 3] = h.place;
}
