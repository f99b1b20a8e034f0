// Openings told in words.
use crate::inputs::{FIRST, LAST};
use crate::loads::SETTINGS;
use crate::shown::opened;
use load::Load;
use settings::Settings;

// How far from 0 a clock time may be.
const REACH: i64 = 1 << 40;

// Settings that open, but for what is changed.
fn open<F: FnOnce(&mut Settings)>(rt: &impl Print, label: &str, change: F)
    requires { F.IsAlwaysCallable change }
{
    let mut settings = Settings {
        origins: 4,
        targets: 4,
        max_transfers: 1,
        now: 0,
        epochs: [0; 3],
        ..SETTINGS
    };
    change(&mut settings);
    opened(rt, label, Load::open(settings))
}

fn counts(rt: &impl Print) {
    open(rt, "5 origins", |s| s.origins = 5);
    open(rt, "5 targets", |s| s.targets = 5);
    open(rt, "3 transfers", |s| s.max_transfers = 3);
    open(
        rt,
        "4 origins, 4 targets, 2 transfers",
        |s| s.max_transfers = 2,
    )
}

fn clocks(rt: &impl Print) {
    open(rt, "start 2^40 + 1", |s| s.now = REACH + 1);
    open(rt, "start -2^40 - 1", |s| s.now = -REACH - 1);
    open(rt, "first epoch 2^40 + 1", |s| s.epochs[0] = REACH + 1);
    open(rt, "second epoch -2^40 - 1", |s| s.epochs[1] = -REACH - 1);
    open(rt, "third epoch 2^40 + 1", |s| s.epochs[2] = REACH + 1);
    open(rt, "start 2^40, epochs -2^40", |s| {
        s.now = REACH;
        s.epochs = [-REACH; 3];
    });
    open(rt, "1+2", |s| {
        s.origins = 5;
        s.now = REACH + 1;
    });
    open(rt, "3 transfers, 1+2", |s| {
        s.max_transfers = 3;
        s.now = REACH + 1;
    })
}

fn change_times(rt: &impl Print) {
    open(rt, "15300 seconds", |s| s.transfer_seconds = 15300);
    open(rt, "15301 seconds", |s| s.transfer_seconds = 15301);
    open(rt, "65535 seconds", |s| s.transfer_seconds = 65535);
    open(rt, "15300 seconds, 2", |s| {
        s.transfer_seconds = 15300;
        s.now = REACH + 1;
    });
    open(rt, "15301 seconds, 1+2", |s| {
        s.transfer_seconds = 15301;
        s.now = REACH + 1;
    })
}

pub fn without_dates(rt: &impl Print) {
    counts(rt);
    clocks(rt);
    change_times(rt)
}

fn open_on(rt: &impl Print, label: &str, dates: [u32; 3]) {
    opened(rt, label, Load::open_dated(SETTINGS, dates))
}

// With other faults than those of the dates, which are none.
fn open_wrong(rt: &impl Print, label: &str, transfers: u8, now: i64) {
    let settings = Settings {
        max_transfers: transfers,
        now,
        ..SETTINGS
    };
    opened(rt, label, Load::open_dated(settings, [0; 3]))
}

pub fn with_dates(rt: &impl Print) {
    open_on(
        rt,
        "with the first and the last date",
        [FIRST, LAST, 20000229],
    );
    open_on(rt, "with one date three times", [20240229; 3]);
    open_on(rt, "with dates that fall", [20261118, 20261117, 20261116]);
    open_on(rt, "with first date 0", [0, 20261117, 20261118]);
    open_on(
        rt,
        "with second date 19000229",
        [20261116, 19000229, 20261118],
    );
    open_on(
        rt,
        "with third date 100000101",
        [20261116, 20261117, 100000101],
    );
    open_wrong(rt, "1+20", 3, 0);
    open_wrong(rt, "2+20", 1, REACH + 1)
}
