// The lines of waiting ports, one for each account, first come first served, and the turn of each line's front port.
#![tactic(auto)]

ghost use Rattle.std.specs.Prelude.{◌≡◌, ◌≤◌, ◌<◌, ℕ, Bool, [], ltb, length, Option};
ghost use Rattle.line.specs.declared.Place.{Place};
ghost use Rattle.line.specs.Line.{waiting, waiting_in, empty, front_of, into, left, ticked};
ghost use Rattle.line.specs.Line as spec;
ghost use Rattle.line.specs.Inside.{room_in, changed, Keeps};
ghost use Rattle.line.specs.Inside as inside;

// A port in line for the account in that room. `turn` is what is left of the port's turn where it is in front of the account's line, and says
// nothing where it isn't.
#[derive(Clone, Copy)]
pub struct Place {
    pub port: u8,
    pub room: u8,
    pub turn: u8,
}

impl Place {
    // The room of the account that the place is for.
    fn room_in(self) -> usize
        ensures { (result ≡ room_in self) × (result < 32) }
    {
        (self.room % 32) as usize
    }

    // The place of a port that stays, with that much of its turn left in front. One that isn't in front has its whole turn before it.
    fn stays(self, front: bool, turn: u8) -> Place
        ensures { result ≡ inside.stays front turn self }
    {
        Place {
            turn: if front { turn } else { 60 },
            ..self
        }
    }
}

// At most four ports wait in all, so four places hold every account's line. Those in use are the first `len`, in the order in which the ports
// came; over four means four. A room number over 31 means its remainder by 32.
// The length stays beside the places, both public: tables of any bytes have an answer, also with a length over four, and meter, painted and
// replay make and read such lines by their fields.
#[derive(Clone, Copy)]
pub struct Lines {
    pub places: [Place; 4],
    pub len: usize,
}

impl Lines {
    // The places in use.
    fn in_use(&self) -> &[Place]
        ensures { (result.now ≡ waiting_in self.now) × (length result.now ≤ 4) }
    {
        &self.places[..self.len.min(4)]
    }

    pub fn fresh() -> Lines
        ensures { waiting result ≡ (λ _. empty) }
    {
        Lines {
            places: [Place {
                port: 0,
                room: 0,
                turn: 0,
            }; 4],
            len: 0,
        }
    }

    // The room of the account in whose line the port stands, the first such where there are several.
    pub fn room_of(self, port: u8) -> Option<usize>
        ensures { result ≡ spec.room_found port (waiting self) }
    {
        self.in_use()
            .iter()
            .filter(|place| place.port == port)
            .map(|place| place.room_in())
            .min()
    }

    // Whether the port is in line.
    pub fn has(self, port: u8) -> bool
        ensures { result ≡ ltb (spec.room_for port (waiting self)) 32 }
    {
        self.in_use().iter().any(|place| place.port == port)
    }

    // Who is in front of the line of the account in that room.
    pub fn front_of(self, room: usize) -> Option<u8>
        ensures { result ≡ front_of (waiting self room) }
    {
        self.in_use()
            .iter()
            .find(|place| place.room_in() == room)
            .map(|place| place.port)
    }

    // The port goes to the back of the line of the account in that room. Where four wait, and for a room over 31, nobody comes.
    pub fn join(mut self, port: u8, room: usize) -> Lines
        ensures { waiting result ≡ spec.joined_in port room (length (waiting_in self)) (waiting self) }
    {
        if self.len < 4 && room < 32 {
            self.places[self.len] = Place {
                port,
                room: room as u8,
                turn: 60,
            };
            self.len += 1;
        }
        self
    }

    // What a change makes of the lines. It is asked of each place, in front of its line or not: how much of its turn is left in front, or
    // nothing where the place is given up.
    fn change_all<F: Fn(Place, bool) -> Option<u8>>(self, change: F) -> Lines
        requires { F.IsAlwaysCallable change }
        ensures { (gone : Bool → Place → Bool) (after : ℕ → ℕ)
            → Keeps gone after (F.post change) → waiting_in result ≡ changed gone after [] (waiting_in self) }
    {
        let mut places = self.places;
        let mut kept = 0;
        // The rooms of the places before this one.
        let mut seen = [false; 32];
        for place in self.in_use() {
            let room = place.room_in();
            let front = !seen[room];
            seen[room] = true;
            if let Some(turn) = change(*place, front) {
                places[kept] = place.stays(front, turn);
                kept += 1;
            }
        }
        Lines { places, len: kept }
    }

    // The port leaves the line that it is in. A function of its own: with it in line an offer copies the table more often.
    #[inline(never)]
    pub fn leave(self, port: u8) -> Lines
        ensures { waiting result ≡ (λ room. left port (waiting self room)) }
    {
        self.change_all(|place, _| (place.port != port).then_some(place.turn))
    }

    // The line of the account in that room is emptied.
    pub fn remove(self, room: usize) -> Lines
        ensures { waiting result ≡ into room empty (waiting self) }
    {
        self.change_all(|place, _| (place.room_in() != room).then_some(place.turn))
    }

    // A turn ends with its last tick.
    pub fn tick(self) -> Lines
        ensures { waiting result ≡ (λ room. ticked (waiting self room)) }
    {
        self.change_all(|place, front| {
            (!front || 1 < place.turn).then_some(place.turn.saturating_sub(1))
        })
    }
}
