//! What connections are served with: memory, the routes of requests and the tags of the planner's page, which are made once.
ghost use Rattle.std.specs.Prelude.{◌≡◌, IfOk, OnOk};
ghost use Rattle.fr_page.specs.Page.{text_of};
ghost use Rattle.fr_http.specs.Conditions.{tag_of};
ghost use Rattle.fr_http.specs.Routes.{matched, router, with_route};

use crate::page_tags::PageTags;
use crate::routes::{Resource, routes};
use fr_base::NoMemory;
use fr_page::Part;
use matchit::Router;
use std::alloc::{AllocError, Global};
use std::marker::Model;

/// An engine that serves connections, with the routes of all requests and the tags of the planner's page.
#[derive(Drop)]
pub struct Engine {
    alloc: Global,
    routes: Router<Resource>,
    tags: PageTags,
}

/// An engine has all routes, and no other.
impl Model for Engine {
    ghost use Rattle.std.specs.Global.{Global};
    ghost use Rattle.std.specs.Prelude.{◌≡◌};
    ghost use Rattle.matchit.specs.Router.{RouteOf};
    ghost use Rattle.matchit.specs.Rows.{RowsOf};
    ghost use Rattle.fr_http.specs.Routes.{router};
    ghost use Rattle.fr_http.specs.declared.routes.Resource.{Resource};

    ghost Value = { Global × RowsOf (RouteOf Resource) };

    ghost view = { λ e. (e.alloc, e.routes) };

    ghost invariant = { λ e. e.routes ≡ router };
}

impl Engine {
    /// An engine that serves with this memory. It is an error only for want of memory.
    pub fn new(alloc: Global) -> Result<Engine, NoMemory>
        ensures { IfOk result (λ made. made ≡ (alloc, router)) }
    {
        let routes = router(alloc)?;
        let tags = PageTags::new(alloc)?;
        Ok(Engine {
            alloc,
            routes,
            tags,
        })
    }

    /// Its memory.
    pub fn alloc(&self) -> Global
        ensures { result ≡ self.now.0 }
    {
        self.alloc
    }

    /// The tag of a part of the planner's page.
    pub(crate) fn tag(&self, part: Part) -> &str
        ensures { result.now ≡ tag_of (text_of part) }
    {
        self.tags.of(part)
    }

    /// What the path leads to.
    pub(crate) fn find(&self, path: &str) -> Option<Resource>
        ensures { result ≡ matched path.now }
    {
        let resource = self.routes.at(path).ok().map(|found| *found.value)?;
        if resource.leads(path) {
            Some(resource)
        } else {
            None
        }
    }
}

// The router that has the routes.
fn router(alloc: Global) -> Result<Router<Resource>, NoMemory>
    ensures { IfOk result (λ made. made ≡ router) }
{
    let mut router = Router::new(alloc);
    for (pattern, resource) in routes() {
        add(&mut router, pattern, resource)?;
    }
    Ok(router)
}

// Adds what a path leads to. The patterns are well formed and differ, so the only error is want of memory.
fn add(router: &mut Router<Resource>, pattern: &str, resource: Resource) -> Result<(), NoMemory>
    ensures { OnOk result (router.new ≡ with_route router.old (pattern.now, resource)) }
{
    if router.insert(pattern, resource).is_err() {
        return Err(AllocError);
    }
    Ok(())
}
