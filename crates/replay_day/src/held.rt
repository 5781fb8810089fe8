// The day that a script is at, if there is one.
use history::states::Day;

// No day can be dropped; what holds one lets it go by its numbers.
pub struct Held {
    day: Option<Day>,
}

fn end(day: Option<Day>) {
    if let Some(day) = day {
        let _ = day.into_numbers();
    }
}

impl Held {
    pub fn none() -> Held {
        Held { day: None }
    }

    pub fn take(&mut self) -> Option<Day> {
        self.day.take()
    }

    pub fn put(&mut self, day: Day) {
        end(self.day.replace(day));
    }

    pub fn clear(&mut self) {
        end(self.day.take());
    }
}

impl Drop for Held {
    fn drop(self) {
        let Held { day } = self;
        end(day);
    }
}
