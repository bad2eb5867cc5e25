//! Accesses, which are written anew when they are a minute old.

ghost use Rattle.std.specs.Prelude.{◌≡◌, map};
ghost use Rattle.jar_types.specs.Gets as gets;

use crate::by_id::ById;
use crate::eligible::is_answered;
use jar_types::{Cookie, Moment, REFRESH_AFTER, Request};

/// Refreshes each of these cookies.
pub fn refresh_all(cookies: &mut [Cookie], now: Moment)
    ensures { cookies.new ≡ map (gets.refreshed now) cookies.old }
{
    for cookie in cookies.iter_mut() {
        refresh(cookie, now);
    }
}

/// The cookies, with those refreshed that a request gets.
#[tactic(auto, using(jar_types::proofs::RisingLemmas::served_rises))]
pub fn served(cookies: ById, request: &Request, now: Moment) -> ById
    ensures { result ≡ map (gets.served request.now now) cookies }
{
    let mut all = cookies.into_vec();
    serve_vec(&mut all, request, now);
    ById::from_vec(all)
}

/// Refreshes those cookies of a vector that a request gets.
fn serve_vec(cookies: &mut Vec<Cookie>, request: &Request, now: Moment)
    ensures { cookies.new.items ≡ map (gets.served request.now now) cookies.old.items }
{
    serve_all(cookies.as_mut_slice(), request, now);
}

/// Refreshes those of these cookies that a request gets.
fn serve_all(cookies: &mut [Cookie], request: &Request, now: Moment)
    ensures { cookies.new ≡ map (gets.served request.now now) cookies.old }
{
    for cookie in cookies.iter_mut() {
        serve(cookie, request, now);
    }
}

/// Refreshes a cookie, where a request gets it.
fn serve(cookie: &mut Cookie, request: &Request, now: Moment)
    ensures { cookie.new ≡ gets.served request.now now cookie.old }
{
    if is_answered(request, cookie, now) {
        refresh(cookie, now);
    }
}

/// Writes the access of a cookie anew, where that is a minute old.
fn refresh(cookie: &mut Cookie, now: Moment)
    ensures { cookie.new ≡ gets.refreshed now cookie.old }
{
    if cookie.access.ms() + REFRESH_AFTER <= now.ms() {
        cookie.access = now;
    }
}
