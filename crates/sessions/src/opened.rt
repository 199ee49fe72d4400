// A new box of four ways in memory.
use anyhow::anyhow;
use lock::{Lock, open};
use seats::Seat;
use store::Memory;

// Opens the box, and plays on it.
pub(crate) fn on_new_box<F: FnOnce(&mut Lock<'_, Memory<'_>>) -> anyhow::Result<()>>(
    rt: &HostRuntime,
    play: F,
) -> anyhow::Result<()>
    requires { F.IsAlwaysCallable play }
{
    let mut cells = vec![in rt.alloc(); 0; 252]?;
    let mut table = vec![in rt.alloc(); Seat::away(); 64]?;
    let mut store = Memory::new(cells.as_mut_slice());
    let table = table.as_mut_slice();
    let mut record = open(4, &mut store, table).map_err(|_| anyhow!("the box was not opened"))?;
    let mut lock = Lock {
        record: &mut record,
        store: &mut store,
        table,
    };
    play(&mut lock)
}
