//! Laws of connections that are served one after another: each supplier has the exchanges of a
//! register that holds it alone, the register is sound after each, and what asks nothing has the same
//! reply from every register, unless its key is nobody's. Bytes that begin with a head have one
//! outcome, and from one book one reply.
ghost use Rattle.fr_http.specs.Laws.{ExchangesAreAlone, ExchangesAreSoundThroughout, UnaskedIsAlike};
ghost use Rattle.fr_http.specs.OutcomeLaws.{ExchangeIsOne, OutcomeIsOne};

/// On connections that are served one after another, each supplier has the same exchanges as with a
/// register that holds it alone. Those that ask nothing are among them. So are those that the
/// supplier sends before it joins, when its key is nobody's.
pub fn exchanges_are_alone()
    ensures { ExchangesAreAlone }
{}

/// A sound register is sound after each connection. So at most one frame is sent in a cycle, slot and channel of a variant,
/// by the node that holds the grant: the laws `one_frame_in_a_cell` and `holder_sends` of `fr_base`.
pub fn exchanges_are_sound_throughout()
    ensures { ExchangesAreSoundThroughout }
{}

/// A connection that asks nothing has the same reply from every register, unless its key is
/// nobody's.
pub fn unasked_is_alike()
    ensures { UnaskedIsAlike }
{}

/// Bytes that begin with a head have one outcome and one interim reply.
pub fn outcome_is_one()
    ensures { OutcomeIsOne }
{}

/// Two connections that are served from one book, with the same bytes, which begin with a head, have the same reply and lead
/// to the same book, but for pictures, and for where `Unavailable` comes.
pub fn exchange_is_one()
    ensures { ExchangeIsOne }
{}
