// Meets each refusal of opening, stop, call, rule, search, service, exception and withdrawal alone and in pairs, and writes what is
// answered, and what a good step after it is answered. The file `stdout` says what the order of RULES 16.2 gives. In each file handle,
// label and what is tried are parameters of `told`, and a call's numbers those of `call`: a struct would be made for one call.
#![tactic(auto)]

mod added_cases;
mod call_cases;
mod call_of_cases;
mod exception_cases;
mod fault;
mod good;
mod inputs;
mod loads;
mod open_cases;
mod pairs;
mod rule_cases;
mod search_cases;
mod service_cases;
mod shown;
mod step;
mod stop_cases;
mod withdrawal_cases;

fn run(rt: &impl Print) {
    open_cases::without_dates(rt);
    stop_cases::run(rt);
    call_cases::run(rt);
    rule_cases::run(rt);
    search_cases::run(rt);
    open_cases::with_dates(rt);
    service_cases::run(rt);
    exception_cases::run(rt);
    call_of_cases::run(rt);
    added_cases::run(rt);
    withdrawal_cases::run(rt)
}

// A failed write goes unsaid, as what is printed is compared with the file `stdout`; the next is tried.
fn main(rt: HostRuntime) {
    run(&rt);
}
