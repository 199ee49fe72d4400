// Bytes in hex.
use std::alloc::AllocError;

// Reads the bytes of a line, two digits each; all other characters are passed over.
pub fn read(line: &[u8], bytes: &mut Vec<u8>) -> Result<(), AllocError> {
    let mut high = None;
    for c in line {
        let Some(low) = digit(*c) else {
            continue;
        };
        match high {
            None => high = Some(low),
            Some(h) => {
                bytes.push(joined(h, low))?;
                high = None;
            }
        }
    }
    Ok(())
}

// A digit; std's `to_digit` would take capitals too, which are passed over here.
fn digit(c: u8) -> Option<u8> {
    match c {
        b'0'..=b'9' => Some(c - b'0'),
        b'a'..=b'f' => Some(c - b'a' + 10),
        _ => None,
    }
}

fn joined(high: u8, low: u8) -> u8 {
    (high % 16) * 16 + low % 16
}

// Prints replies, one a line.
pub fn print(rt: &HostRuntime, replies: &[u8]) -> anyhow::Result<()> {
    let mut rest = replies;
    while let [_, _, size, ..] = rest {
        let (reply, others) = rest.split_at(rest.len().min(usize::from(*size) + 3));
        rest = others;
        for (k, b) in reply.iter().enumerate() {
            let lead = if k == 0 { "" } else { " " };
            print!(rt; "{lead}{b:02x}")?;
        }
        println!(rt; "")?;
    }
    Ok(())
}
