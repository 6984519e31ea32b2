//! What the target of a request names.

ghost use Rattle.std.specs.Prelude.{◌≡◌, true, IfOk, IfSome};
ghost use Rattle.std.specs.Char.{is_ascii};
ghost use Rattle.std.specs.List.{list_all};
ghost use Rattle.rd_messages.specs.Table.{router_rows};

use crate::kept_router::KeptRouter;
use crate::table::Served;
use crate::target::ascii_path;
use crate::values::{Values, path_values};
use matchit::Router;
use rd_geometry::NoMemory;
use std::alloc::Global;

/// What a target names: what desk serves there, and the values in its path.
#[derive(Clone, Copy)]
pub(crate) struct Route {
    pub(crate) served: Served,
    pub(crate) values: Values,
}

impl Route {
    ghost use Rattle.rd_messages.specs.PathValues.{AreWithin};
    ghost use Rattle.rd_messages.specs.Routes.{route_of, route_of_path};

    /// What a path of ASCII names, by the router of the table; `None` if it names nothing. It fails
    /// only when memory runs out, and takes none for a path without a date.
    fn of_path(
        alloc: Global,
        router: &Router<Served>,
        path: &str,
    ) -> Result<Option<Route>, NoMemory>
        requires router { router.now ≡ router_rows }
        requires ascii { list_all is_ascii path.now ≡ true }
        ensures { IfOk result (λ found. found ≡ route_of_path path.now) }
    {
        match router.at(path) {
            Ok(found) => {
                let served = *found.value;
                match path_values(alloc, &found.params)? {
                    Some(values) => Ok(Some(Route { served, values })),
                    None => Ok(None),
                }
            }
            Err(_) => Ok(None),
        }
    }

    /// What the target of a request names; `None` if it names nothing. It does not read what
    /// follows a question mark, and decodes nothing. It takes memory only to build the router and to
    /// read a date, and fails only if that is refused.
    pub(crate) fn of_target(
        alloc: Global,
        router: &mut KeptRouter,
        target: &[u8],
    ) -> Result<Option<Route>, NoMemory>
        ensures route { IfOk result (λ found. found ≡ route_of target.now) }
        ensures within { IfOk result (λ found. IfSome found (λ route. AreWithin route.values)) }
    {
        let Some(path) = ascii_path(target) else {
            return Ok(None);
        };
        let router = router.get(alloc)?;
        Route::of_path(alloc, router, path)
    }
}
