use laws::Call;

// What a line of a script says.
#[derive(Clone, Copy)]
pub(crate) enum Line {
    // nothing
    Blank,
    // how many ways the box has
    Ways(u8),
    // a call, made so many times
    Calls { call: Call, times: u16 },
}
