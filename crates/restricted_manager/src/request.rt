//! What a renderer asks of the jar.

ghost use Rattle.std.specs.Prelude.{◌≡◌, IfOk, option_copied};
ghost use Rattle.site_match.specs.Contexts as contexts;
ghost use Rattle.restricted_manager.specs.Requests as spec;

use crate::manager::Manager;
use jar_types::{Context, NoMemory, Op, Request, Scope, Text};
use site_match::{FetchAsk, Place, context};
use std::alloc::Global;

impl Manager {
    /// The op that binds the document's key to a cell.
    ///
    /// Only want of memory refuses. This jar's own rule: docs/DEFINITIONS.md.
    pub fn bind_op(&self, alloc: Global) -> Result<Op, NoMemory>
        ensures { IfOk result (λ op. op ≡ spec.bind_of self.now) }
    {
        Ok(Op::Bind(self.document.key.copy(alloc)?))
    }

    /// The op that listens to the changes of the document's cookies, of all or of those of a name.
    ///
    /// Only want of memory refuses. This jar's own rule: docs/DEFINITIONS.md.
    pub fn listen_op(&self, alloc: Global, name: Option<&str>) -> Result<Op, NoMemory>
        ensures { IfOk result (λ op. op ≡ spec.listen_of self.now (option_copied name.entry)) }
    {
        let request = request_of(alloc, &self.document, &self.site)?;
        Ok(Op::Listen(scope_of(alloc, request, name)?))
    }
}

/// The request of a renderer for a place, with its site for cookies.
pub fn request_of(alloc: Global, place: &Place, site: &Option<Place>) -> Result<Request, NoMemory>
    ensures { IfOk result (λ request. request ≡ spec.request_of place.now site.now) }
{
    Ok(Request {
        key: place.key.copy(alloc)?,
        host: place.host.copy(alloc)?,
        path: place.path.copy(alloc)?,
        secure: place.scheme.is_secure(),
        script: true,
        context: context_of(alloc, place, site)?,
    })
}

/// The context of what is no navigation, for a place and a site for cookies.
pub fn context_of(alloc: Global, place: &Place, site: &Option<Place>) -> Result<Context, NoMemory>
    ensures { IfOk result (λ context. context ≡ contexts.fetch_context place.now site.now) }
{
    let ask = FetchAsk {
        place: place.copy(alloc)?,
        site: copy_of(alloc, site)?,
        initiator: None,
        safe_method: true,
        navigation: false,
    };
    Ok(context(&ask))
}

/// A copy of a place that may be missing.
fn copy_of(alloc: Global, place: &Option<Place>) -> Result<Option<Place>, NoMemory>
    ensures { IfOk result (λ copied. copied ≡ place.now) }
{
    match place {
        Some(place) => Ok(Some(place.copy(alloc)?)),
        None => Ok(None),
    }
}

/// The changes of the cookies of a request, or of these those of a name.
fn scope_of(alloc: Global, request: Request, name: Option<&str>) -> Result<Scope, NoMemory>
    ensures { IfOk result (λ scope. scope ≡ spec.scope_of request (option_copied name.entry)) }
{
    match name {
        Some(name) => Ok(Scope::Named(request, Text::of(alloc, name)?)),
        None => Ok(Scope::Seen(request)),
    }
}
