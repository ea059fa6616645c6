// The requests of one instant, as flat numbers: each of them, one put in, whether it is within its limits, and REQUEST at the first of n that is not.
#![tactic(auto)]

ghost use Rattle.std.specs.Prelude.{◌≡◌, ◌<◌};
ghost use Rattle.theory.specs.Numbers.{REQUESTS};
ghost use Rattle.tables.specs.Asked.{request_at, flat};
ghost use Rattle.requests.specs.Requests.{fits, judge_requests};
ghost use Rattle.requests.specs.Asked.{request_of};
ghost use Rattle.requests.specs.Flat.{put_at};

use answers::{Name, Verdict, refuse};
use periodic_limits::of_roles;
use tables::{REQUEST_BYTES, byte};
use theory::{LONGEST_DELAY, PRIORITIES, REQUESTS};
use widths::row_index;

// The flat numbers of the most requests.
// Kept: flat numbers, with how many requests they are beside them, for document 01 names them as what the core of a step takes.
pub const FLAT_NUMBERS: usize = REQUEST_BYTES * REQUESTS;

// A request: its event, its priority, and for how many instants later it is.
#[derive(Clone, Copy)]
pub struct Request {
    pub event: u8,
    pub priority: u8,
    pub delay: u8,
}

// Request k of flat numbers.
pub fn request_at(asked: &[u8], k: u16) -> Request
    ensures { request_of result ≡ request_at asked.now k }
{
    let at = REQUEST_BYTES * row_index(k);
    Request {
        event: byte(asked, at),
        priority: byte(asked, at + 1),
        delay: byte(asked, at + 2),
    }
}

// A request becomes request i of flat numbers. (For those alone who fill them, who have shown that there are not more.)
pub fn put(numbers: &mut [u8; FLAT_NUMBERS], i: usize, r: Request)
    requires { i < REQUESTS }
    ensures { numbers.new ≡ put_at numbers.old i (request_of r) }
{
    let at = REQUEST_BYTES * i;
    numbers[at] = r.event;
    numbers[at + 1] = r.priority;
    numbers[at + 2] = r.delay;
}

// A request is within its limits.
pub fn request_fits(roles: u8, r: Request) -> bool
    ensures { result ≡ fits roles (request_of r) }
{
    let event = of_roles(roles, r.event);
    let priority = r.priority < PRIORITIES;
    let delay = r.delay <= LONGEST_DELAY;
    event & priority & delay
}

// REQUEST: the first of the first n requests that is outside its limits.
pub fn judge_requests(roles: u8, asked: &[u8], n: u16) -> Verdict
    ensures { result ≡ judge_requests roles (flat asked.now n) }
{
    for k in 0..n {
        if !request_fits(roles, request_at(asked, k)) {
            return refuse(Name::Request, k as u32);
        }
    }
    Ok(())
}
