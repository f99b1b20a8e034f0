// The steps on a week: a service, an exception, and what a call asks of it.
ghost use Rattle.std.specs.Prelude.{◌≡◌, take, cond, None, Some};
ghost use Rattle.laws.specs.Lists.{anyb};
ghost use Rattle.services.specs.Exceptions.{days_on};
ghost use Rattle.week.specs.Weeks.{dates_in, named, service_in, week_stepped, service_on, exception_on, running};

use crate::answer::{exception_place, is_named, service_answer, service_of};
use crate::{Running, Week};
use prefix::first;
use refusal::{Accepted, Answer, is_taken};
use services::{ExceptionInput, Service, ServiceInput, days_on};

impl Week {
    // The services taken.
    fn taken(&self) -> &[Service]
        ensures { result.now ≡ take self.now.service_count self.now.services }
    {
        first(&self.services, self.service_count)
    }

    // The service with the name.
    fn service_in(&self, name: &[u8]) -> Option<Service>
        ensures { result ≡ cond (anyb (named name.now) (take self.now.service_count self.now.services))
            (Some (service_in self.now name.now)) None }
    {
        self.taken()
            .iter()
            .find(|service| is_named(service, name))
            .copied()
    }

    // A service is taken, or sent back and the week left as it was; `searched` is the load's.
    pub fn take_service(&mut self, searched: bool, name: &[u8], input: ServiceInput) -> Answer
        ensures { week_stepped result self.new
            ≡ service_on self.old searched name.now input.weekdays input.start input.end }
    {
        let at = self.service_count;
        let answer = service_answer(searched, self.closed, self.taken(), name, input);
        if is_taken(answer) {
            self.services[at] = service_of(name, input);
            self.service_count = at + 1;
        }
        answer
    }

    // The days that have the date, as a mask; none without dates.
    fn days_on(&self, date: u32) -> u8
        ensures { result ≡ days_on (dates_in self.now) date }
    {
        match self.dates {
            Some(dates) => days_on(dates, date),
            None => 0,
        }
    }

    // An exception is taken, or sent back and the week left as it was.
    pub fn take_exception(&mut self, searched: bool, name: &[u8], input: ExceptionInput) -> Answer
        ensures { week_stepped result self.new ≡ exception_on self.old searched name.now input.date input.kind }
    {
        let at = exception_place(searched, self.closed, self.taken(), name, input)?;
        let days = self.days_on(input.date);
        let service = &mut self.services[at];
        *service = service.excepted(days, input.kind);
        Ok(Accepted::Taken)
    }

    // Whether the service that a call names runs on the call's day. A week without dates lets every call pass.
    #[tactic(auto, unfolding(crate::specs::Weeks::running))]
    pub fn running(self, name: &[u8], day: u8) -> Running
        ensures { result ≡ running self name.now day }
    {
        let Some(dates) = self.dates else {
            return Running::Runs;
        };
        let Some(service) = self.service_in(name) else {
            return Running::Unknown;
        };
        let date = dates.get(usize::from(day)).copied().unwrap_or(0);
        if service.runs(day, date) {
            Running::Runs
        } else {
            Running::Rests
        }
    }
}
