// Answers as they cross to C, where all are numbers. The definitions that the contracts cite are in specs/.
#![tactic(auto)]

ghost use Rattle.backoff.specs.Refusal.{verdict_of};
ghost use Rattle.lookup.specs.Lookup.{lookup_answer};
ghost use Rattle.arpa_reading.specs.Rows.{rows_in};
ghost use Rattle.c_answers.specs.Answers.{StatusIs, FoundIs, TotalOf, RowCountIs};

use backoff::Refusal;
use lookup::Listed;

// The refusal's number and place, 0 and 0 where nothing is refused.
#[repr(C)]
#[derive(Drop)]
pub struct Status {
    pub number: u32,
    pub place: u32,
}

// A lookup's answer: `found` is 1 where the words are a row, whose p and b follow; `left` is 1 where some row puts a further word in front of it.
#[repr(C)]
#[derive(Drop)]
pub struct Found {
    pub number: u32,
    pub place: u32,
    pub found: u32,
    pub p: i32,
    pub b: i32,
    pub left: u32,
}

// The answer of a run or of plain scoring: the total of the points, 0 where it was refused.
#[repr(C)]
#[derive(Drop)]
pub struct Total {
    pub number: u32,
    pub place: u32,
    pub total: i64,
}

// The answer of a reading or a filling: the row count, or the refusal's number with its line or row.
#[repr(C)]
#[derive(Drop)]
pub struct RowCount {
    pub number: u32,
    pub rows: u32,
    pub place: u64,
}

impl From<Result<(), Refusal>> for Status {
    ghost from_gives = { λ answer status. StatusIs (verdict_of answer) status };

    fn from(answer: Result<(), Refusal>) -> Status {
        match answer {
            Ok(()) => Status {
                number: 0,
                place: 0,
            },
            Err(Refusal { reason, place }) => Status {
                number: u32::from(reason),
                place,
            },
        }
    }
}

impl From<Result<Option<Listed>, Refusal>> for Found {
    ghost from_gives = { λ answer found. FoundIs (lookup_answer answer) found };

    fn from(answer: Result<Option<Listed>, Refusal>) -> Found {
        let mut found = Found {
            number: 0,
            place: 0,
            found: 0,
            p: 0,
            b: 0,
            left: 0,
        };
        match answer {
            Ok(Some(listed)) => {
                found.found = 1;
                found.p = listed.p;
                found.b = listed.b;
                found.left = u32::from(listed.left);
            }
            Ok(None) => {}
            Err(refusal) => {
                found.number = u32::from(refusal.reason);
                found.place = refusal.place;
            }
        }
        found
    }
}

impl From<Result<i64, Refusal>> for Total {
    ghost from_gives = { λ answer total. TotalOf answer total };

    fn from(answer: Result<i64, Refusal>) -> Total {
        match answer {
            Ok(total) => Total {
                number: 0,
                place: 0,
                total,
            },
            Err(refusal) => Total {
                number: u32::from(refusal.reason),
                place: refusal.place,
                total: 0,
            },
        }
    }
}

impl From<Result<u32, Refusal<u64>>> for RowCount {
    ghost from_gives = { λ answer count. RowCountIs (rows_in answer) count };

    fn from(answer: Result<u32, Refusal<u64>>) -> RowCount {
        match answer {
            Ok(rows) => RowCount {
                number: 0,
                rows,
                place: 0,
            },
            Err(refusal) => RowCount {
                number: u32::from(refusal.reason),
                rows: 0,
                place: refusal.place,
            },
        }
    }
}
