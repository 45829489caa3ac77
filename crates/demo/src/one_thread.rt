//! Stores three references into region 1, refines a full log, and asks at a pause which cards have
//! to be scanned.

use anyhow::{Context, Result, bail};
use g1_core::{Config, Core, Drained, Layout, Log, Settings};

/// Plays this program.
pub fn play<R: Print + AllocGlobal>(rt: &R) -> Result<()> {
    let layout = Layout::new(4, 2, 4).context("outside the limits of a heap")?;
    let config = Config::of(Settings {
        log: 2,
        ..Settings::default()
    })
    .context("a setting outside its limits")?;
    let mut core = Core::new(rt.alloc(), layout, config)?;
    let mut log = config.new_log();
    for (slot, target) in [(0, 8), (16, 9), (24, 10)] {
        store(rt, &mut core, &mut log, slot, target)?;
    }
    scan(rt, &mut core, 1)
}

// The write barrier: a store, and the refinement of the log that it filled.
fn store(rt: &impl Print, core: &mut Core, log: &mut Log, slot: u32, target: u32) -> Result<()> {
    let layout = core.layout();
    let slot = layout.slot(slot).context("no such slot")?;
    let (reply, full) = core.store(log, slot, layout.slot(target));
    println!(rt; "store: {:?}", reply.kind)?;
    if let Some(buffer) = full {
        let reply = core.refine(Some(&buffer))?;
        println!(rt; "refined {} cards", reply.refined.len())?;
    }
    Ok(())
}

// The pause: a drain of the region that is to be emptied.
fn scan(rt: &impl Print, core: &mut Core, region: u32) -> Result<()> {
    let region = core.layout().region(region).context("no such region")?;
    let Drained::Cards { cards, .. } = core.drain(region)? else {
        bail!("out of memory: the rest stays pending, drain again");
    };
    for card in cards.as_slice() {
        println!(rt; "scan card {}", card.number())?;
    }
    Ok(())
}
