// Why a text is no cron text.

/// Where a text stops being a cron text: at the first byte with which no cron text goes on, or at the end of a text that ends too early.
#[derive(Clone, Copy, Drop)]
pub struct CronFault {
    /// The field that the text before it has reached, from 0: minute, hour, day of the month, month and weekday.
    pub field: u8,
    /// The byte, from 0; the text's length where it ends too early.
    pub place: usize,
}
