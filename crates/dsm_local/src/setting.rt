/// What a processor is told beside its code.
#[derive(Clone, Copy, Debug, PartialEq, Eq)]
pub struct Setting {
    /// The words of the memory.
    pub size: u32,
    /// Its number.
    pub p: u32,
    /// How many processors there are.
    pub procs: u32,
    /// The most instructions that it does.
    pub turns: u64,
}
