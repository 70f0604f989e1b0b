// The reading of a store from its file.
use crate::grouped::grouped;
use crate::read_records::ReadRecords;
use std::time::Instant;

/// The reading of a store that a server begins with. It tells on standard error how much was read, and in what time.
#[derive(Drop)]
pub struct Reading {
    rt: HostRuntime,
    began: Instant,
    records: ReadRecords,
}

impl Reading {
    /// It begins now. None where there is no clock.
    pub fn begin(rt: HostRuntime, records: ReadRecords) -> Option<Reading> {
        let began = Instant::now(&rt).ok()?;
        Some(Reading { rt, began, records })
    }

    /// It has ended, and the server listens.
    pub fn tell(&self) {
        let records = self.records.get();
        let Ok(taken) = self.began.elapsed(&self.rt) else {
            return;
        };
        let Ok(number) = grouped(self.rt.alloc(), records) else {
            return;
        };
        let were = if records == 1 {
            "record was"
        } else {
            "records were"
        };
        let _untold = eprintln!(self.rt;
            "sidekiq: {number} {were} read from it in {}.{:02} s; listening",
            taken.as_secs(),
            taken.subsec_millis() / 10
        );
    }
}
