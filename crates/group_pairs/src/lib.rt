// A group of sentences, the same words at all places but one: its range of totals, and the earliest of its pairs that spans it.
#![tactic(auto)]

ghost use Rattle.std.specs.Prelude.{◌<◌, length};
ghost use Rattle.group_pairs.specs.Groups.{Small, IsGroup, Has, FirstWith, IsRange, GroupPair};

// Two sentences, named by their numbers from 1, and how far their totals lie apart.
#[derive(Clone, Copy)]
pub struct Pair {
    pub distance: i64,
    pub first: usize,
    pub second: usize,
}

// The least and the largest total of a group, and how far they lie apart.
#[derive(Clone, Copy)]
pub struct Range {
    pub low: i64,
    pub high: i64,
    pub distance: i64,
}

// Two or more sentences among all of these totals: `count` of them from `first` on, each the weight of the place behind the one before.
#[derive(Clone, Copy)]
pub struct Group<'a> {
    pub totals: &'a [i64],
    pub first: usize,
    pub weight: usize,
    pub count: usize,
    pub ghost is_group: { IsGroup totals.now first weight count },
}

impl Group<'_> {
    // The range of its totals.
    pub fn range(self) -> Range
        requires { Small self.totals.now }
        ensures { IsRange self.entry.totals.now self.entry.first self.entry.weight self.entry.count result }
    {
        let mut low = self.totals[self.first];
        let mut high = low;
        for s in 1..self.count {
            let total = self.totals[self.first + s * self.weight];
            low = low.min(total);
            high = high.max(total);
        }
        Range {
            low,
            high,
            distance: high - low,
        }
    }

    // Its first sentence with that total.
    fn first_with(self, total: i64) -> usize
        requires { Has self.totals.now self.first self.weight self.count total }
        ensures first { FirstWith self.entry.totals.now self.entry.first self.entry.weight total result }
        ensures listed { result < length self.entry.totals.now }
    {
        for s in 0..self.count - 1 {
            let at = self.first + s * self.weight;
            if self.totals[at] == total {
                return at;
            }
        }
        self.first + (self.count - 1) * self.weight
    }

    // The earliest of its pairs that spans its range: the first two where all totals are equal.
    pub fn pair(self, range: Range) -> Pair
        requires { IsRange self.totals.now self.first self.weight self.count range }
        ensures { GroupPair self.entry.totals.now self.entry.first self.entry.weight self.entry.count result }
    {
        let low = self.first_with(range.low);
        let high = self.first_with(range.high);
        let (first, second) = if low == high {
            (self.first, self.first + self.weight)
        } else {
            (low.min(high), low.max(high))
        };
        Pair {
            distance: range.distance,
            first: first + 1,
            second: second + 1,
        }
    }
}
