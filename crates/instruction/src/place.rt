// A place in instruction words.
ghost use Rattle.instruction.specs.Bytes.{WithinWords};

// A position in instruction words or just past them, as the one after a byte that was read.
#[derive(Clone, Copy)]
pub(crate) struct Place<'a> {
    pub words: &'a [u8],
    pub next: u32,
    ghost within: { WithinWords words.now next },
}
