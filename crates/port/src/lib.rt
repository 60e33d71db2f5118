// A port's own record: its run of wrong replies and its shut ticks.
#![tactic(auto)]

ghost use Rattle.std.specs.Prelude.{◌≡◌};
ghost use Rattle.port.specs.Port.{wrongly, wrong_answer, rightly, cooled};

use refusal::Refusal;

#[derive(Clone, Copy)]
pub struct Port {
    pub wrong: u8,
    pub shut: u16,
}

impl Port {
    // What a port's own record becomes is written where it stands, in the record that is lent.

    pub fn tick(&mut self)
        ensures { self.new ≡ cooled self.old }
    {
        self.shut = self.shut.saturating_sub(1);
    }

    pub fn right(&mut self)
        ensures { self.new ≡ rightly self.old }
    {
        self.wrong = 0;
    }

    // The third wrong reply in a row shuts the port for 900 ticks. What is answered is `wrong_answer` of the record as it was.
    pub fn wrong(&mut self)
        ensures { self.new ≡ wrongly self.old }
    {
        if self.wrong < 2 {
            self.wrong += 1;
        } else {
            *self = Port {
                wrong: 0,
                shut: 900,
            };
        }
    }

    pub fn wrong_answer(self) -> Refusal
        ensures { result ≡ wrong_answer self }
    {
        if self.wrong < 2 {
            return Refusal::ReplyWrong;
        }
        Refusal::ReplyWrongThird
    }

    // The table's calls hand a record over, which is lent to these three: so who has plain values lends nothing.

    pub fn after_tick(mut self) -> Port
        ensures { result ≡ cooled self }
    {
        self.tick();
        self
    }

    pub fn after_right(mut self) -> Port
        ensures { result ≡ rightly self }
    {
        self.right();
        self
    }

    pub fn after_wrong(mut self) -> Port
        ensures { result ≡ wrongly self }
    {
        self.wrong();
        self
    }
}
