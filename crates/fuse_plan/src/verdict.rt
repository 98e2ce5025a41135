// What a read-back says of a batch.
use fuse_image::Image;

/// What is wrong with a chip.
#[derive(Clone, Copy, PartialEq, Eq, Debug)]
pub enum ChipFault {
    /// What was burnt and can be read reads 0.
    Lost,
    /// What was neither burnt nor asked for reads 1, or what is read-protected does.
    Stray,
    /// A key block shows what it shouldn't, or doesn't show what it should.
    Key,
}

/// What a read-back says of a batch.
#[derive(Clone, Copy)]
pub enum Verdict {
    /// All of the batch is burnt, and nothing is wrong.
    Match,
    /// Nothing is wrong, but this rest of the batch isn't burnt.
    Short(Image),
    /// Something is wrong.
    Fault(ChipFault),
}
