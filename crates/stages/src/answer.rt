// The answer area (document 01): stage 5, written straight into the lent area from what was kept.
mod area;
mod bits;
mod blocks;
mod byte_bits;
mod heads;
mod literal_bits;
mod merging;
mod stage5;

pub(crate) use stage5::stage5;
