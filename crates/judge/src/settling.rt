// Settling: a renumbering of least cost, by shortest augmenting paths. Place c - 1 of a list is that of number c, or of event c.
ghost use Rattle.std.specs.Prelude.{◌≡◌, ℕ, suc, ◌-◌, ◌<◌, ◌≤◌, length, None, slice_index_or};
ghost use Rattle.tables.specs.Table.{Within};
ghost use Rattle.judge.specs.Seating.{SeatsOneMore};
ghost use Rattle.judge.specs.Rows.{Agree, AgreePast, listed_cost, shorter, Preferred, NearestPlace, less_end};
ghost use Rattle.judge.specs.Settling.{graded, Solvable, Ready, Relaxed, Seated, Found, seat_in, finder_of, scanned_in, finder_in, path_in, fresh_seats, take_number, turned, WayBack};

use crate::WIDTH;
use crate::grading::Pairs;
use costs::Cost;
use tables::grade::Grade;

// Who has which number: the event that has number c at place c - 1, and the number of event r at place r - 1. Each list is
// asked by its own place, so they are two, and arrays, since judging allocates nothing.
#[derive(Drop)]
pub(crate) struct Seats {
    holders: [Option<u32>; WIDTH],
    pub(crate) numbers: [Option<u32>; WIDTH],
}

// What a search knows of a number: nothing, the event that found the path to it, or that event after the number was scanned.
#[derive(Clone, Copy)]
enum Reach {
    Unseen,
    Reached(u32),
    Scanned(u32),
}

// A search over all pairs: what it knows of each number, and the cost of the path to each number that it reached. These are
// two lists: an array, since judging allocates nothing, and the work list that the caller lends.
#[derive(Drop)]
struct Search<'a, C> {
    pairs: Pairs<'a, C>,
    known: [Reach; WIDTH],
    paths: &'a mut [C],
    ghost long: { pairs.size ≤ length paths.now },
}

impl Reach {
    // The event that found the path to the number, if any did.
    fn finder(self) -> Option<u32>
        ensures { result ≡ finder_of self }
    {
        match self {
            Reach::Unseen => None,
            Reach::Reached(event) | Reach::Scanned(event) => Some(event),
        }
    }
}

// The path over an event, where the pair is open and that path is less than the one known.
fn shorter_path<C: Cost>(known: Option<C>, grade: Grade<C>, lead: C) -> Option<C>
    ensures { result ≡ shorter C.Cost.kind known grade lead }
{
    let Grade::Open(cost) = grade else {
        return None;
    };
    let path = lead.plus(cost);
    match known {
        None => Some(path),
        Some(least) => {
            if least.at_most(&path) {
                None
            } else {
                Some(path)
            }
        }
    }
}

// Whether a key is to be preferred to that of the best so far: where both are the same, a free number is.
fn is_nearer<C: Cost>(best: Option<(usize, C)>, key: C, free: bool) -> bool
    ensures { Preferred C.Cost.kind best key result }
{
    match best {
        None => true,
        Some((_, least)) => {
            let under = key.at_most(&least);
            let over = least.at_most(&key);
            under & (free | !over)
        }
    }
}

impl Seats {
    // Nobody has a number yet.
    pub(crate) fn new() -> Seats
        ensures { result ≡ fresh_seats }
    {
        Seats {
            holders: [None; WIDTH],
            numbers: [None; WIDTH],
        }
    }

    // The event takes the number; the one that it had is answered.
    fn seat(&mut self, event: u32, number: u32) -> Option<u32>
        requires event { Within 32 event }
        requires number { Within 32 number }
        ensures seats { self.new ≡ take_number self.old event number }
        ensures own { result ≡ slice_index_or self.old.numbers (event - 1) None }
    {
        let own = self.numbers[event as usize - 1];
        self.numbers[event as usize - 1] = Some(number);
        self.holders[number as usize - 1] = Some(event);
        own
    }
}

// What is required of an event or a place is that it lies within the size of these pairs, which no type of its own can name.
// Prices and seats are the caller's, who is told what they are afterwards: so the prices' room is required and what stands
// behind is promised where they are written. A method by `&mut self` says that the pairs stay, a fact of the call.
impl<'a, C: Cost> Search<'a, C> {
    // The cost that stands at a place of the paths.
    fn cost_at(&self, place: usize) -> C
        requires { place < self.now.pairs.size }
        ensures { result ≡ slice_index_or self.now.paths.now place C.Cost.kind.zero }
    {
        self.paths[place]
    }

    // The cost of the path to the number at a place, where one is found.
    fn path(&self, place: usize) -> Option<C>
        requires { place < self.now.pairs.size }
        ensures { result ≡ path_in C.Cost.kind self.now.known self.now.paths.now (suc place) }
    {
        self.known[place].finder().map(|_finder| self.paths[place])
    }

    // Goes over the row of an event with a lead: each number that is not scanned takes the path over the event where that is less.
    fn relax_row(&mut self, event: u32, lead: C)
        requires { Within self.old.pairs.size event }
        ensures relaxed { Relaxed C.Cost.kind (graded self.old.pairs) self.old.pairs.size event lead self.old.known self.old.paths.now self.new.known self.new.paths.now }
        ensures pairs { self.new.pairs ≡ self.old.pairs }
    {
        let pairs = self.pairs;
        for (place, grade) in pairs.row(event).iter().enumerate() {
            if let Reach::Scanned(_finder) = self.known[place] {
                continue;
            }
            if let Some(path) = shorter_path(self.path(place), *grade, lead) {
                self.known[place] = Reach::Reached(event);
                self.paths[place] = path;
            }
        }
    }

    // The place of the number to go on with: reached and not scanned, and of the least key, which is its path less its price.
    fn nearest(&self, seats: &Seats, prices: &[C]) -> Option<usize>
        requires { self.now.pairs.size ≤ length prices.now }
        ensures { NearestPlace C.Cost.kind self.now.pairs.size (listed_cost C.Cost.kind prices.now) (scanned_in self.now.known) (path_in C.Cost.kind self.now.known self.now.paths.now) result }
    {
        let mut best = None;
        for (place, price) in prices[..self.pairs.size()].iter().enumerate() {
            if let Reach::Reached(_finder) = self.known[place] {
                let key = self.cost_at(place).minus(*price);
                if is_nearer(best, key, seats.holders[place].is_none()) {
                    best = Some((place, key));
                }
            }
        }
        best.map(|(place, _key)| place)
    }

    // Searches for a shortest augmenting path from an event, from the start: the place of the free number where it ends.
    fn find_sink(&mut self, event: u32, seats: &Seats, prices: &[C]) -> usize
        requires { Ready C.Cost.kind self.old.pairs event seats.now prices.now }
        ensures found { Found C.Cost.kind (graded self.old.pairs) self.old.pairs.size event seats.now (listed_cost C.Cost.kind prices.now) self.new.known self.new.paths.now result }
        ensures pairs { self.new.pairs ≡ self.old.pairs }
    {
        let pairs = self.pairs;
        self.known = [Reach::Unseen; WIDTH];
        self.relax_row(event, C::zero());
        for _turn in 0..pairs.size() {
            let Some(place) = self.nearest(seats, prices) else {
                unreachable()
            };
            let held = seats.holders[place];
            let Some(holder) = held else {
                return place;
            };
            let Grade::Open(cost) = pairs.grade(holder, place) else {
                unreachable()
            };
            let lead = self.cost_at(place).minus(cost);
            let Reach::Reached(finder) = self.known[place] else {
                unreachable()
            };
            self.known[place] = Reach::Scanned(finder);
            self.relax_row(holder, lead);
        }
        unreachable()
    }

    // Sets the price of each scanned number to its path less the path to the sink.
    fn reprice(&self, end: C, prices: &mut [C])
        requires { self.now.pairs.size ≤ length prices.old }
        ensures is { Agree self.now.pairs.size (listed_cost C.Cost.kind prices.new) (less_end C.Cost.kind (scanned_in self.now.known) (listed_cost C.Cost.kind self.now.paths.now) end (listed_cost C.Cost.kind prices.old)) }
        ensures beyond { AgreePast self.now.pairs.size (listed_cost C.Cost.kind prices.new) (listed_cost C.Cost.kind prices.old) }
    {
        for (place, reach) in self.known[..self.pairs.size()].iter().enumerate() {
            if let Reach::Scanned(_finder) = *reach {
                prices[place] = self.cost_at(place).minus(end);
            }
        }
    }

    // Turns the path to a free number over: each event on it takes the number that it found, back to the event that the search is for.
    fn turn_over(&self, event: u32, sink: u32, seats: &mut Seats)
        requires { WayBack self.now.pairs.size self.now.pairs.size (finder_in self.now.known) event seats.old sink }
        ensures { seats.new ≡ turned self.now.pairs.size (finder_in self.now.known) event seats.old sink }
    {
        let mut number = sink;
        for _turn in 0..self.pairs.size() {
            let found = self.known[number as usize - 1].finder();
            let Some(finder) = found else { unreachable() };
            let own = seats.seat(finder, number);
            if finder == event {
                return;
            }
            let Some(next) = own else { unreachable() };
            number = next;
        }
        unreachable()
    }

    // Seats one event more: prices follow the search, and the path that it found is turned over.
    fn seat_next(&mut self, event: u32, seats: &mut Seats, prices: &mut [C])
        requires { Ready C.Cost.kind self.old.pairs event seats.old prices.old }
        ensures seated { Seated C.Cost.kind (graded self.old.pairs) self.old.pairs.size seats.new (listed_cost C.Cost.kind prices.new) }
        ensures more { SeatsOneMore C.Cost.kind (graded self.old.pairs) self.old.pairs.size (seat_in seats.old) event (seat_in seats.new) }
        ensures beyond { AgreePast self.old.pairs.size (listed_cost C.Cost.kind prices.new) (listed_cost C.Cost.kind prices.old) }
        ensures pairs { self.new.pairs ≡ self.old.pairs }
    {
        let sink = self.find_sink(event, seats, prices);
        let end = self.cost_at(sink);
        self.reprice(end, prices);
        self.turn_over(event, sink as u32 + 1, seats);
    }
}

// Sets the price of each number to zero.
fn clear<C: Cost>(size: usize, prices: &mut [C])
    requires { size ≤ length prices.old }
    ensures zero { Agree size (listed_cost C.Cost.kind prices.new) (λ _. C.Cost.kind.zero) }
    ensures beyond { AgreePast size (listed_cost C.Cost.kind prices.new) (listed_cost C.Cost.kind prices.old) }
{
    prices[..size].fill_with(|| C::zero());
}

// A renumbering of least cost, and the prices of numbers that prove it so: event after event takes a number, along a shortest augmenting path.
// The seats are lent, whatever they were: handed back by value they were copied twice, which took a third of the time of
// judging the smallest table (timed).
pub(crate) fn settle<C: Cost>(
    pairs: &Pairs<C>,
    seats: &mut Seats,
    prices: &mut [C],
    paths: &mut [C],
)
    requires solvable { Solvable C.Cost.kind (graded pairs.now) pairs.now.size }
    requires prices { pairs.now.size ≤ length prices.old }
    requires paths { pairs.now.size ≤ length paths.old }
    ensures seated { Seated C.Cost.kind (graded pairs.now) pairs.now.size seats.new (listed_cost C.Cost.kind prices.new) }
    ensures all { (i : ℕ) → Within pairs.now.size i → 1 ≤ seat_in seats.new i }
    ensures beyond { AgreePast pairs.now.size (listed_cost C.Cost.kind prices.new) (listed_cost C.Cost.kind prices.old) }
{
    clear(pairs.size(), prices);
    *seats = Seats::new();
    let mut search = Search {
        pairs: *pairs,
        known: [Reach::Unseen; WIDTH],
        paths,
    };
    // event after event; nothing is indexed
    for place in 0..pairs.size() {
        search.seat_next(place as u32 + 1, seats, prices);
    }
}
