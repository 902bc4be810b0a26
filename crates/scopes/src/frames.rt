// What a definition knows: so many clauses, and where in the scope its type parameters, its number parameters and its variables begin.
ghost use Rattle.std.specs.Prelude.{◌≡◌, [], ◌∷◌, ◌+◌, ◌*◌, ◌≤◌, ◌<◌, length};
ghost use Rattle.std.proofs.lemmas.List.Edits.{sets};
ghost use Rattle.making_memory.specs.Map.{frames_at, making_size};
ghost use Rattle.scopes.specs.Frames.{frame_in};

#[derive(Clone, Copy)]
pub struct Frame {
    pub seen: usize,
    pub types: usize,
    pub numbers: usize,
    pub variables: usize,
}

pub fn frame_at(work: &[u16], f: usize) -> Frame
    requires { (f < 82) × (making_size ≤ length work.now) }
    ensures { result ≡ frame_in work.now f }
{
    let at = making_memory::FRAMES + 4 * f;
    Frame {
        seen: usize::from(work[at]),
        types: usize::from(work[at + 1]),
        numbers: usize::from(work[at + 2]),
        variables: usize::from(work[at + 3]),
    }
}

pub fn set_frame(work: &mut [u16], f: usize, x: Frame)
    requires { (f < 82) × ((making_size ≤ length work.old) × ((x.seen < 65536) × ((x.types < 65536) × ((x.numbers < 65536) × (x.variables < 65536))))) }
    ensures { work.new ≡ sets work.old (frames_at + 4 * f) (x.seen ∷ x.types ∷ x.numbers ∷ x.variables ∷ []) }
{
    let at = making_memory::FRAMES + 4 * f;
    work[at] = x.seen as u16;
    work[at + 1] = x.types as u16;
    work[at + 2] = x.numbers as u16;
    work[at + 3] = x.variables as u16;
}
