use ov_base::Text;
use ov_core::Core;
use ov_keeper::VolatileKeeper;
use ov_lanes::Desk;
use std::alloc::Global;
use std::test::Fail;
use test_basics::{Counter, NET, net};

/// The machine over a new database Net in memory, which keeps it as the server does.
pub(crate) fn net_core(alloc: Global) -> Result<Core<VolatileKeeper, Counter>, Fail> {
    let keeper = VolatileKeeper::new(Text::from_str(alloc, NET)?);
    let schema = net(alloc)?;
    match Core::open(alloc, keeper, schema, Counter::new()) {
        Ok(core) => Ok(core),
        Err(_) => Err(Fail::new("not opened")),
    }
}

/// A desk of that machine.
pub(crate) fn net_desk(alloc: Global) -> Result<Desk<VolatileKeeper, Counter>, Fail> {
    Ok(Desk::new(alloc, net_core(alloc)?))
}
