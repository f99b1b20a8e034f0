// A new service, a service by its name, and why a service or an exception is sent back.
ghost use Rattle.std.specs.Prelude.{◌≡◌, length, Some};
ghost use Rattle.std.specs.List.{position_from};
ghost use Rattle.std.specs.Option.{is_some, unwrap_or};
ghost use Rattle.std.specs.Result.{ForOk, result_map_both};
ghost use Rattle.laws.specs.Lists.{anyb};
ghost use Rattle.refusal.specs.declared.Accepted.TheVariants.{Taken};
ghost use Rattle.refusal.specs.First.{first_answer};
ghost use Rattle.week.specs.Weeks.{blank_service, service_of, named, place_of, service_tests, exception_tests};

use crate::SERVICES;
use refusal::{Accepted, Answer, Refusal};
use services::{ExceptionInput, Service, ServiceInput, exception_wrong, span_wrong};
use stop_answer::id_wrong;
use stops::find::same_text;
use texts::Text;

// What an unused slot holds: the default, by a name that contracts can give it.
pub fn blank_service() -> Service
    ensures { result ≡ blank_service }
{
    Service::default()
}

// A new service: seven weekday marks, no exception yet. No `From`: it takes a name beside the numbers.
#[tactic(auto, unfolding(crate::specs::Weeks::service_of))]
pub fn service_of(name: &[u8], input: ServiceInput) -> Service
    ensures { result ≡ service_of name.now input.weekdays input.start input.end }
{
    Service {
        name: Text::of(name),
        weekdays: input.weekdays % 128,
        start: input.start,
        end: input.end,
        added: 0,
        removed: 0,
    }
}

pub fn is_named(service: &Service, name: &[u8]) -> bool
    ensures { result ≡ named name.now service.now }
{
    same_text(service.name.bytes(), name)
}

// The place of the first service with the name.
fn place_of(services: &[Service], name: &[u8]) -> Option<usize>
    ensures first { result ≡ position_from (named name.now) 0 services.now }
    ensures place { unwrap_or result (length services.now) ≡ place_of (named name.now) services.now }
    ensures known { is_some result ≡ anyb (named name.now) services.now }
{
    services.iter().position(|service| is_named(service, name))
}

// What a service is answered, by the services taken: 15, 3, 5, 20, 22.
#[tactic(auto, unfolding(crate::specs::Weeks::service_tests, refusal::specs::First::first_answer))]
pub fn service_answer(
    searched: bool,
    closed: bool,
    services: &[Service],
    name: &[u8],
    input: ServiceInput,
) -> Answer
    ensures { result
        ≡ first_answer (service_tests searched closed services.now (length services.now) name.now input.start input.end) }
{
    if searched || closed {
        return Err(Refusal::AlreadySearched);
    }
    if id_wrong(name) {
        return Err(Refusal::IdLength);
    }
    if place_of(services, name).is_some() {
        return Err(Refusal::IdTaken);
    }
    if span_wrong(input) {
        return Err(Refusal::DateWrong);
    }
    if SERVICES <= services.len() {
        return Err(Refusal::ServicesFull);
    }
    Ok(Accepted::Taken)
}

// The place of the service that an exception is for, or why the exception is sent back: 15, 20, 21.
#[tactic(auto, unfolding(crate::specs::Weeks::exception_tests, refusal::specs::First::first_answer))]
pub fn exception_place(
    searched: bool,
    closed: bool,
    services: &[Service],
    name: &[u8],
    input: ExceptionInput,
) -> Result<usize, Refusal>
    ensures answer { result_map_both (λ _. Taken) (λ r. r) result
        ≡ first_answer (exception_tests searched closed services.now (length services.now) name.now input.date input.kind) }
    ensures place { ForOk result (λ at. position_from (named name.now) 0 services.now ≡ Some at) }
{
    if searched || closed {
        return Err(Refusal::AlreadySearched);
    }
    if exception_wrong(input) {
        return Err(Refusal::DateWrong);
    }
    place_of(services, name).ok_or(Refusal::ServiceUnknown)
}
