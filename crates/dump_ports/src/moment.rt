ghost use Rattle.std.specs.Prelude.{◌≡◌, ◌↔◌, All, IsTrue, IsSome, IfSome, List, [], ◌∷◌};
ghost use Rattle.dump_ports.specs.Moment.{IsPart};

/// A point in time, broken down as C's `struct tm` has it: months count from 0, years from 1900, and `isdst` tells
/// of daylight saving. Each part lies strictly between -2^32 and 2^32.
#[derive(Clone, Copy)]
pub struct Moment {
    /// Seconds of the minute.
    pub sec: i64,
    /// Minutes of the hour.
    pub min: i64,
    /// Hours of the day.
    pub hour: i64,
    /// Day of the month, from 1.
    pub mday: i64,
    /// Months since January.
    pub mon: i64,
    /// Years since 1900.
    pub year: i64,
    /// Above 0 in daylight saving, 0 outside of it, below 0 where that isn't known.
    pub isdst: i64,
    pub ghost sec_is_part: { IsPart sec },
    pub ghost min_is_part: { IsPart min },
    pub ghost hour_is_part: { IsPart hour },
    pub ghost mday_is_part: { IsPart mday },
    pub ghost mon_is_part: { IsPart mon },
    pub ghost year_is_part: { IsPart year },
    pub ghost isdst_is_part: { IsPart isdst },
}

impl Moment {
    /// The moment of these parts, in the order of the fields; `None` exactly where one of them is out of range.
    pub fn new(parts: [i64; 7]) -> Option<Moment>
        ensures valid { IsSome result ↔ All IsPart parts }
        ensures value { IfSome result (λ m. m.sec ∷ m.min ∷ m.hour ∷ m.mday ∷ m.mon ∷ m.year ∷ m.isdst ∷ [] ≡ parts) }
    {
        for part in &parts {
            if !is_part(*part) {
                return None;
            }
        }
        let [sec, min, hour, mday, mon, year, isdst] = parts;
        Some(Moment {
            sec,
            min,
            hour,
            mday,
            mon,
            year,
            isdst,
        })
    }
}

fn is_part(part: i64) -> bool
    ensures { IsTrue result ↔ IsPart part }
{
    const END: i64 = 1 << 32;
    -END < part && part < END
}
