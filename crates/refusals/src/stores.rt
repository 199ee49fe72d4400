// The refusals of the two kinds of store.
use anyhow::anyhow;
use store::{Image, ImageFault, Memory, Store, StoreFault};

// A position at the size, and one far past it, in each kind.
pub fn positions(rt: &HostRuntime) -> anyhow::Result<()> {
    let mut words = [3, 4];
    println!(rt; "two words in memory")?;
    both(rt, &mut Memory::new(&mut words))?;
    let mut bytes = vec![in rt.alloc(); 0; 21]?;
    bytes.as_mut_slice()[0..5].copy_from_slice(&[1, 0, 0, 0, 2]);
    let mut image = Image::open(bytes.as_mut_slice()).map_err(|_| anyhow!("no image"))?;
    println!(rt; "two words in an image")?;
    both(rt, &mut image)
}

fn both<S: Store>(rt: &HostRuntime, store: &mut S) -> anyhow::Result<()> {
    at(rt, store, 2)?;
    at(rt, store, usize::MAX)
}

fn at<S: Store>(rt: &HostRuntime, store: &mut S, pos: usize) -> anyhow::Result<()> {
    let read = number(store.read(pos));
    let write = number(store.write(pos, 9));
    let swap = number(store.swap(pos, 0, 9));
    println!(rt; "position {pos}: read {read}, write {write}, swap {swap}")?;
    Ok(())
}

// The number of a refusal, or 0, as it is printed.
fn number<T: Drop>(answer: Result<T, StoreFault>) -> u8 {
    answer.err().map_or(0, StoreFault::number)
}

// Bytes that are no image.
pub fn images(rt: &HostRuntime) -> anyhow::Result<()> {
    image(rt, &mut [])?;
    image(rt, &mut [1, 0, 0, 0])?;
    image(rt, &mut [2, 0, 0, 0, 0])?;
    image(rt, &mut [1, 0, 0, 0, 1])?;
    image(rt, &mut [1, 0, 0, 0, 0, 9])?;
    image(rt, &mut [1, 255, 255, 255, 255])?;
    image(rt, &mut [1, 0, 0, 0, 1, 1, 2, 3, 4, 5, 6, 7])?;
    image(rt, &mut [1, 0, 0, 0, 0])
}

fn image(rt: &HostRuntime, bytes: &mut [u8]) -> anyhow::Result<()> {
    let length = bytes.len();
    let number = Image::open(bytes).err().map_or(0, ImageFault::number);
    println!(rt; "an image of {length} bytes: {number}")?;
    Ok(())
}
