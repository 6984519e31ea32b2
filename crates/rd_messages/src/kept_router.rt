//! The router of paths, kept from one visit to the next.

ghost use Rattle.std.specs.Prelude.{◌≡◌, IfOk, IfSome, IsSome, OnOk};
ghost use Rattle.std.proofs.Props.{props};
ghost use Rattle.rd_messages.specs.Table.{router_rows};

use crate::table::{Served, router};
use matchit::Router;
use rd_geometry::NoMemory;
use std::alloc::Global;

/// The router of the table, once it is built. It is built for the first path that is looked up, so
/// a visit that looks up none takes no memory for it. If memory runs out it is not built, and the
/// next path that is looked up builds it.
#[derive(Drop)]
pub(crate) struct KeptRouter {
    built: Option<Router<Served>>,
    ghost of_table: { IfSome built (λ rows. rows ≡ router_rows) } by { Prim.hlevel props },
}

impl KeptRouter {
    /// A router that is not built yet. It takes no memory.
    pub(crate) fn new() -> KeptRouter {
        KeptRouter { built: None }
    }

    /// Builds the router, unless it is built. It fails only when memory runs out.
    fn build(&mut self, alloc: Global) -> Result<(), NoMemory>
        ensures { OnOk result (IsSome self.new.built) }
    {
        if self.built.is_none() {
            self.built = Some(router(alloc)?);
        }
        Ok(())
    }

    /// The router of the table. It fails only when memory runs out, and takes none if the router is
    /// built.
    pub(crate) fn get(&mut self, alloc: Global) -> Result<&Router<Served>, NoMemory>
        ensures { IfOk result (λ router. router.now ≡ router_rows) }
    {
        self.build(alloc)?;
        let kept = &*self;
        match &kept.built {
            Some(router) => Ok(router),
            None => unreachable!(),
        }
    }
}
