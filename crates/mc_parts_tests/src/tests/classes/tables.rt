//! The rows, a line `moment operation key number exptime value = reply` each.

// Each text is run on a class of its own.
pub(super) const TABLES: [&str; 13] = [
    "\
1700000000 append a 0 0 x = not stored\n\
1700000000 set a 1 0 b = stored\n\
1700000000 append a 9 9 c = stored\n\
1700000000 prepend a 9 9 a = stored\n\
1700000100 get a 0 0 - = 1 225 abc",
    "\
1700000000 set a 0 0 x = stored\n\
1700000000 get a 0 0 - = 0 97 x\n\
1700000000 cas-97 a 0 0 y = stored\n\
1700000000 cas-97 a 0 0 z = exists\n\
1700000000 cas-1 b 0 0 q = not found\n\
1700000000 get a 0 0 - = 0 161 y\n\
1700000000 count - 0 0 - = 1 of 2",
    "\
1700000000 replace a 0 0 x = not stored\n\
1700000000 add a 0 0 y = stored\n\
1700000000 add a 0 0 z = not stored\n\
1700000000 get a 0 0 - = 0 97 y\n\
1700000000 replace a 3 0 w = stored\n\
1700000000 get a 0 0 - = 3 161 w\n\
1700000000 delete a 0 0 - = deleted\n\
1700000000 delete a 0 0 - = not found\n\
1700000000 prepend a 0 0 x = not stored\n\
1700000000 count - 0 0 - = 0 of 2",
    "\
1700000000 set a 0 0 x = stored\n\
1700000000 touch a 0 50 - = touched\n\
1700000000 touch b 0 50 - = not found\n\
1700000049 get a 0 0 - = 0 97 x\n\
1700000050 get a 0 0 - = missing",
    "\
100 set a 0 0 x = stored\n\
100 flush - 10 0 - = flushed\n\
105 get a 0 0 - = 0 97 x\n\
110 get a 0 0 - = missing\n\
110 add a 0 0 y = stored\n\
200 get a 0 0 - = 0 161 y",
    "\
100 set a 0 10 x = stored\n\
120 get a 0 0 - = missing\n\
105 get a 0 0 - = missing\n\
105 set a 0 10 y = stored\n\
129 get a 0 0 - = 0 161 y\n\
130 add a 0 0 z = stored",
    "\
1700000000 set a 2 60 007 = stored\n\
1700000000 incr a 1 0 - = 8\n\
1700000000 decr a 3 0 - = 5\n\
1700000059 get a 0 0 - = 2 225 5\n\
1700000060 incr a 1 0 - = not found\n\
1700000060 count - 0 0 - = 0 of 1",
    "\
1700000000 set a 0 0 x = stored\n\
1700000000 flush - 0 0 - = flushed\n\
1700000000 get a 0 0 - = missing\n\
1700000000 count - 0 0 - = 0 of 1",
    "\
100 flush - 5 0 - = flushed\n\
100 flush - 0 0 - = flushed\n\
100 set a 0 0 x = stored\n\
105 get a 0 0 - = 0 97 x",
    "\
100 set a 0 0 x = stored\n\
100 flush - 5 0 - = flushed\n\
100 flush - 50 0 - = flushed\n\
105 get a 0 0 - = 0 97 x\n\
150 get a 0 0 - = missing",
    "\
1700000000 set n 0 0 18446744073709551615 = stored\n\
1700000000 incr n 1 0 - = 0\n\
1700000000 set n 0 0 5 = stored\n\
1700000000 decr n 9 0 - = 0\n\
1700000000 set n 0 0 abc = stored\n\
1700000000 incr n 1 0 - = no number\n\
1700000000 incr m 1 0 - = not found\n\
1700000000 set n 0 0 18446744073709551614 = stored\n\
1700000000 incr n 1 0 - = 18446744073709551615\n\
1700000000 decr n 1 0 - = 18446744073709551614\n\
1700000000 set n 0 0 18446744073709551616 = stored\n\
1700000000 decr n 1 0 - = no number\n\
1700000000 get n 0 0 - = 0 609 18446744073709551616",
    "\
1000000000 set a 0 2592000 x = stored\n\
1000000000 set b 0 2592001 x = stored\n\
1000000000 set c 0 -1 x = stored\n\
1000000000 set d 0 0 x = stored\n\
1000000000 get a 0 0 - = 0 97 x\n\
1000000000 get b 0 0 - = missing\n\
1000000000 get c 0 0 - = missing\n\
1000000000 get d 0 0 - = 0 289 x\n\
1000000000 count - 0 0 - = 2 of 4",
    "\
50 set a 0 -1 x = stored\n\
50 add a 7 0 y = stored\n\
50 touch a 0 -5 - = touched\n\
50 get a 0 0 - = missing\n\
9223372036854775807 set a 0 60 z = stored\n\
0 get a 0 0 - = 0 225 z\n\
4611686018427387904 count - 0 0 - = 1 of 3",
];

// Each text is run on a class of its own, that holds at most two items.
pub(super) const SMALL_TABLES: [&str; 7] = [
    "\
1 set a 0 0 x = stored\n\
1 set ! 0 0 y = stored\n\
1 get a 0 0 - = 0 97 x\n\
1 set 0Q 0 0 z = stored\n\
1 get a 0 0 - = 0 97 x\n\
1 get ! 0 0 - = missing\n\
1 get 0Q 0 0 - = 0 225 z\n\
1 count - 0 0 - = 2 of 3",
    "\
100 set a 0 10 x = stored\n\
105 gat a 0 20 - = 0 97 x\n\
105 gat b 0 20 - = missing\n\
115 get a 0 0 - = 0 97 x\n\
125 get a 0 0 - = missing",
    "\
1 set a 0 0 x = stored\n\
1 set ! 0 0 y = stored\n\
1 cas-1 a 0 0 w = exists\n\
1 set 0Q 0 0 z = stored\n\
1 get a 0 0 - = missing",
    "\
100 set ! 0 0 y = stored\n\
100 set a 0 10 x = stored\n\
110 set 0Q 0 0 z = stored\n\
110 get ! 0 0 - = 0 97 y\n\
110 get 0Q 0 0 - = 0 225 z",
    "\
50 set a 0 0 x = stored\n\
50 set ! 0 0 y = stored\n\
50 set 0Q 0 -1 z = stored\n\
50 get a 0 0 - = missing\n\
50 get ! 0 0 - = 0 161 y\n\
50 get 0Q 0 0 - = missing\n\
50 count - 0 0 - = 1 of 3",
    "\
50 set a 0 0 x = stored\n\
50 gat a 0 -1 - = 0 97 x\n\
50 get a 0 0 - = missing\n\
50 set a 0 0 y = stored\n\
50 touch a 0 -1 - = touched\n\
50 count - 0 0 - = 0 of 2",
    "\
50 set a 0 0 1 = stored\n\
50 set ! 0 0 y = stored\n\
50 incr a 1 0 - = 2\n\
50 append ! 0 0 z = stored\n\
50 touch a 0 60 - = touched\n\
50 set 0Q 0 0 z = stored\n\
50 get ! 0 0 - = missing\n\
50 get a 0 0 - = 0 225 2\n\
110 set b 0 0 w = stored\n\
110 get 0Q 0 0 - = 0 353 z",
];
