// What a block is as a header of the log.
use vx_srlfmt::Header;

/// What a block is as a header of the log.
#[derive(Drop)]
pub enum TopSeen {
    Valid(Header),
    /// It begins as a header, and the digest that it has is not the one computed of it.
    Broken {
        stored: [u8; 32],
        computed: [u8; 32],
    },
    Other,
}
