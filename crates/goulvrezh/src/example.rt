// The example that ships with the program: the same text as examples/offer.table.
pub(crate) const NAME: &str = "offer.table";

pub(crate) const TEXT: &str =
    "# The handset's side of an offer: an organ is offered to a ward, which accepts or declines it, or
# lets the offer lapse; the service acknowledges whatever came of it.
#
# Values: 0 and 1.
# Channel 1: an offer comes in; its value is 1 if the offer is urgent.
# Channel 2: the ward's answer; 1 accepts, 0 declines.
# Channel 3: the service acknowledges; its value is 1 if the ward has to call back.
# Channel 4: the handset reports that an offer has lapsed; 0 plain, 1 urgent.
#
# State 0: waiting for an offer
# State 1: a plain offer is on the screen
# State 2: an urgent offer is on the screen
# State 3: answered, waiting for the acknowledgement
# State 4: a plain offer has lapsed
# State 5: an urgent offer has lapsed
# State 6: the ward is to call back
# State 7: withdrawn, which nothing leads to
states 8
range 2
root 0
# FROM KIND CHANNEL VALUE TO
0 receive 1 0 1
0 receive 1 1 2
1 send 2 1 3
1 send 2 0 3
1 silent 0 0 4
2 send 2 1 3
2 send 2 0 3
2 silent 0 0 5
3 receive 3 0 0
3 receive 3 1 6
4 send 4 0 3
5 send 4 1 3
6 silent 0 0 0
";
