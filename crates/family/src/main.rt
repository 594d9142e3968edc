// A parent and its child on a page table: each step, and what came of it.
#![tactic(auto)]

mod story;

use paging::{FlatTable, Word};
use story::Story;

fn main(rt: HostRuntime) -> anyhow::Result<()> {
    on_flat_table(&rt)?;
    on_short_memory(&rt)
}

fn on_flat_table(rt: &HostRuntime) -> anyhow::Result<()> {
    let mut memory = vec![in rt.alloc(); 0 as Word; FlatTable::WORDS]?;
    println!(rt; "A flat table over {} words.", memory.len())?;
    Story::new(rt, FlatTable::new(memory.as_mut_slice())).tell()?;
    let greatest = memory.iter().copied().max().unwrap_or(0);
    println!(rt; "The memory is back, and its greatest word is {greatest}.")?;
    Ok(())
}

fn on_short_memory(rt: &HostRuntime) -> anyhow::Result<()> {
    let mut memory = vec![in rt.alloc(); 0 as Word; FlatTable::WORDS - 1]?;
    println!(rt; "A flat table over {} words, one too few.", memory.len())?;
    Story::new(rt, FlatTable::new(memory.as_mut_slice())).tell_nothing_fits()?;
    Ok(())
}
