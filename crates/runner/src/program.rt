// This module holds what the parts of a program know of it.

// What the program runs in, its name, and whether it prints tables.
#[derive(Drop)]
pub(crate) struct Program<'a> {
    pub(crate) rt: &'a HostRuntime,
    pub(crate) name: &'a [u8],
    pub(crate) tables: bool,
}
