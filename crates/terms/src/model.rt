// What a text of terms says.
#[derive(Drop)]
pub struct Terms {
    pub offices: u32,
    pub grain: u32,
    pub ladder: LadderChoice,
    pub post: PostChoice,
}

// The ladder by its number of steps, or by its divisors, the first for step 1.
#[derive(Drop)]
pub enum LadderChoice {
    Halving(u32),
    Listed(Vec<u32>),
}

#[derive(Clone, Copy)]
pub enum PostChoice {
    Direct,
    Bit,
}
