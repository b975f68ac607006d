//! The texts of the helps, and the version. `tests/help.py` holds them to the manual pages, and runs their examples and recipes.

ghost use Rattle.osdp_tool.specs.Help.{IsHelpOf};

use crate::choice::Topic;
use crate::help_test::TEST;

/// The product's version, as `--version` prints it. It stands here alone; the header for C and the crate for Rust have the same number.
pub const VERSION: &str = "osdp 0.1.0\n";

const PROGRAM: &str =
    "osdp: shows, checks and makes packets of an OSDP line, and runs panels and readers

usage: osdp COMMAND [WORD]...

  show     print a line for each packet, skipped byte and refused byte of a capture
  monitor  print what happens on a line, and which end breaks its rules
  check    print the refusals of a capture, and how many packets there are
  make     print the digits of one packet
  sim      run a script of a line between a controller and its readers
  panel    run a panel by lines of text
  reader   run a reader by lines of text
  plan     print how long a line takes that is planned
  test     tell which rules a device keeps, by what it answered
  help     print this, or the help of a command: osdp help show

  -h, --help  print this
  --version   print the version

Each command reads standard input, or the files that are named, and writes standard output. Secure Channel is
not read or spoken. The status is 0, or 1 where show, check or monitor met a refusal, or monitor accused an
end. It is 2 at bad words or bad input, 3 where a read or a write failed, and 4 without memory. Of several
files it is the greatest. The manual: man osdp, and man osdp-monitor, osdp-panel, osdp-plan, osdp-reader and
osdp-test.
";

const SHOW: &str =
    "osdp show: prints a line for each packet, each skipped byte and each refused byte of a capture

usage: osdp show [FORM] [--join] [--times] [--no-polls] [--address A] [FILE]...

  --raw        the input is bytes, as they come from a port
  --osdpcap    the input is .osdpcap: an object of JSON a line
  --xxd        the input is what xxd wrote of bytes, and one run
  --stamped    the input is lines of a stamp, TX or RX, and digits
  --join       all lines of digits are one run
  --times      begin each line with the moment and the way of its run
  --no-polls   leave out each POLL and each ACK
  --address A  leave out the packets of all addresses but this, 0 to 127

Input: standard input, or each FILE, of which - is standard input. It is lines of hexadecimal digits, where
no FORM is given, which is one of the first four options. Each line is a run, that is, bytes between two
silences. Spaces and tabs are passed over, and a line that begins with # is a comment. A live line is shown
as it comes. Where several files are given, a comment with the name stands above the lines of each.

Examples:

  $ echo 53 00 07 00 00 60 46 | osdp show
  1:0 cmd 0 seq 0 sum POLL

  $ printf '\\123\\0\\7\\0\\0\\140\\106' | osdp show --raw
  1:0 cmd 0 seq 0 sum POLL

A line of the output is the run and the place in it, then one of these:

  cmd A seq N K T    a packet of the panel to address A, with number N, check K and message T
  reply A seq N K T  a packet of the reader at address A
  skip XX            a byte that begins no packet
  refused F1, F2     a byte 53 whose packet has too small or too great a length
  refused F3         a byte 53 whose packet has a wrong check: the line is damaged
  refused F4         a byte 53 whose packet is cut off by the end of the run

Recipes, from other texts to lines of digits:

  of hexdump -C        sed 's/|.*//; s/^[0-9a-f]*//' FILE | osdp show --join
  of xxd               osdp show --xxd FILE
  of 0x53, 0x00        sed 's/0[xX]//g; s/[,;{}]//g' FILE | osdp show
  of 53:00:07          sed 's/[:-]//g' FILE | osdp show
  of 10:02:33 TX: 53   osdp show --stamped FILE

Where the input plainly is in another form than the one it is read in, standard error has one line that says
so. Where skip lines alone are printed, thousands of them, look at the rate and the wires:
docs/INSTALLING.md, \"A device that doesn't answer\".
";

const MONITOR: &str = "osdp monitor: tells what happens on a line, and which end breaks its rules

usage: osdp monitor [FORM] [OPTION]... [FILE]...

  --raw      the input is bytes, as they come from a port
  --osdpcap  the input is .osdpcap: an object of JSON a line
  --xxd      the input is what xxd wrote of bytes: each line is a run
  --stamped  the input is lines of a stamp, TX or RX, and digits
  --packets  print each packet, skipped byte and refused byte too, as show does
  --talk     the same, but no POLL, and no ACK that answers a POLL; and the reason of a NAK in words
  --standard leave out accusations by the profile alone, where other makers may do otherwise
  --recorded the bytes were recorded before: no silence ends a run, as in a file
  --times    put its run's moment and way before each line, and tell how long each device takes to answer
  --clock    the same, each moment as the day's time, 10:02:33.125
  --json     print an object of JSON in place of each line
  --gap N    a run of bytes is over N milliseconds after its last ones, 1 to 3600000; else 20
  --every N  print the table again N seconds after the last one, 1 to 3600000, as bytes come; from
             the second one on, what came since the last one stands before it

Input: that of show: lines of digits, each of which is a run, or what one of the first four options says. The
table comes where the input ends: end the program that gives the bytes. Ctrl-C ends this one, and no table is
printed. The bytes of a file were recorded before. man osdp-monitor says what accusations and diagnoses mean.

Examples:

  $ echo 53050700006041 | osdp monitor
  device  asked  polls repeats  answered  busy  nak  events  opened  moved  judged  forgot  accused
  5           1      1       0         0     0    0       0       0      0       0       0        0
  runs 1 packets 1 skipped 0 refused 0 judged 0 accused 0
  nothing was judged

  $ printf '53050700016040\\n5305070003603E\\n' | osdp monitor
  2:0 device 5: unanswered
  2:0 panel to 5: a number out of turn (standard)
  device  asked  polls repeats  answered  busy  nak  events  opened  moved  judged  forgot  accused
  5           2      2       0         0     0    0       0       0      0       1       0        1
  runs 2 packets 2 skipped 0 refused 0 judged 1 accused 1
";

const CHECK: &str = "osdp check: prints the refusals of a capture, and then counts

usage: osdp check [FORM] [--join] [FILE]...

  --raw        the input is bytes, as they come from a port
  --osdpcap    the input is .osdpcap: an object of JSON a line
  --xxd        the input is what xxd wrote of bytes, and one run
  --stamped    the input is lines of a stamp, TX or RX, and digits
  --join       all lines of digits are one run

Input: that of show. The last line counts the runs, the packets, the skipped bytes and the refusals.

Examples:

  $ echo 53000700006046 | osdp check
  runs 1 packets 1 skipped 0 refused 0

  $ echo 53000700006047 | osdp check
  1:0 refused F3
  runs 1 packets 0 skipped 6 refused 1
";

const MAKE: &str = "osdp make: prints the digits of one packet

usage: osdp make ADDRESS NUMBER sum|crc WORD...

  ADDRESS   0 to 127; 127 is each device's
  NUMBER    the sequence number, 0 to 3
  sum, crc  which check the packet ends with
  WORD...   the text of a command or a reply, as show prints it

Input: none. docs/PROTOCOL.md has the texts of all messages.

Examples:

  $ osdp make 5 1 crc OUT 0:2:0
  53050C000568000200005183

  $ osdp make 5 0 sum ID 0
  530508000061003F
";

const SIM: &str =
    "osdp sim: runs a script of a line between a controller and its readers, and prints what happened

usage: osdp sim

Input: a script, which is a line for the check, a line for each reader, and a line for each step.

  check sum, check crc         which check the controller's packets end with
  reader ADDRESS EVENTS        a reader, with room for so many events; readers count from 1
  issue READER WORD...         a command is submitted for a reader
  queue READER WORD...         a reader has an event to tell
  busy READER on, off          whether a reader answers BUSY
  wait MS                      so many milliseconds pass
  to-reader, to-controller     then deliver, drop, repeat, or damage HEX: what becomes of the packet in front
  clean N                      rounds without losses, with one reader alone
  reopen READER                a session that has ended begins again

Examples:

  $ printf 'reader 5 4\\nqueue 1 KEYPAD 0 31\\nclean 2\\n' | osdp sim
  reader 1 issued 0 taken 0 settled 0 unsettled 0 queued 1 reported 1
  reported KEYPAD 0 31

  $ printf 'reader 5 4\\nissue 1 OUT 0:2:0\\nclean 2\\n' | osdp sim
  reader 1 issued 1 taken 1 settled 1 unsettled 0 queued 0 reported 0
  taken OUT 0:2:0
  settled OUT 0:2:0 = ACK
";

const PANEL: &str = "osdp panel: runs a panel of up to sixteen readers on one line, by lines of text

usage: osdp panel [SETTING VALUE]...

  check sum, check crc  which check packets end with: crc
  reply-wait MS         how long an answer is waited for: 200
  poll-interval MS      from an answer to the next POLL: 50
  sends N               how often a packet is sent while no answer comes, 1 to 255: 3
  busy-wait MS          from a BUSY to the next send: 50
  busy-limit N          how often a reader may answer BUSY in one exchange, 0 to 255: 20
  quiet-wait MS         how long a device is left quiet before a session opens: 400
  gap MS                after how long a silence a run of bytes is over: 20
  capacity N            how many commands may wait for each device, 1 to 1024: 64

Input: a call on each line. Another program carries the port: share/osdp/examples/panel.py is one. Devices
count from 1, in the order in which they were added.

  at MOMENT               the moment of the lines to come, in milliseconds
  add ADDRESS NUMBER      a device joins the line; its first order has this number, 0 where it never had one
  begin I                 the session of device I begins
  submit I UNTIL WORD...  an order for it: a command that may go out until this moment, or never is too late
  withdraw I              the order that has waited longest is taken back
  retarget I ADDRESS      the device is at this address from now on
  bytes HEX               these bytes have come
  silence                 the line was silent
  tick                    what is due is done
  write                   the bytes of the tick's burst go out at this moment

Commands of submit, by their texts. Times are in 100 ms, that of TEXT in seconds. docs/PROTOCOL.md has all.

  ID 0                            what the device is: it answers PDID
  CAP 0                           what it can do: it answers PDCAP
  LSTAT, ISTAT, OSTAT, RSTAT      its tamper and power, its inputs, its outputs, its readers
  OUT OUTPUT:CONTROL:TIME..       control 1 is off and 2 on for good, 5 is on and 6 off for the time
  LED N:N:N:N:N:N:N:N:N:N:N:N:N   0:0:0:0:0:0:0:0:1:1:0:2:0 is LED 0 of reader 0, green for good
  BUZ READER TONE ON OFF COUNT    0 2 1 1 1 is one short sound of reader 0
  TEXT READER N N ROW COLUMN HEX  0 1 0 1 1 48454C4C4F is HELLO, to stay
  COMSET ADDRESS RATE             the device goes to this address, 0 to 126, and rate
  MFG VENDOR HEX                  what a maker has of its own

Answers: before the last line of an answer stand lines like these.

  burst                 a burst is to go out: call write
  send HEX              write these bytes to the line at once
  order N               comes before what is told of an order: its number
  waits I               an order was accepted
  opened I PDID..       the session is open
  settled I X = Y       command X was answered Y; a NAK says that it wasn't done
  moved I X = Y         COMSET X is done, and the session closed: once all have moved set the port, and begin
  event I since M X     the device tells X; the POLL that it answers was first sent at moment M
  maybe-again I ..      the same of an event that may have been told before: make no second order of it
  answered I X          a POLL was answered X, which is no event
  unread I code XX..    the answer can't be read; the command that may follow may have been done or not
  lost I CAUSE..        the session is closed: no-reply, too-busy or number-refused; a command as with unread,
                        with withheld before it where a packet of it wasn't given out, being too late
  expired I X           the last moment of command X has passed while it waited: it never goes out
  passed over I X       what the device says while no session is open: NAK 6 that it demands Secure Channel
  withdrawn I X         command X was taken back
  refused line          no call: its name, how many words it has, or one that is no value or out of its range
  refused B2, B3        sixteen devices are there; the address is another device's, or reserved for one
  refused B4, B5        there is no device I; the address is 127
  refused B6, B7        a COMSET goes to an address above 126; the device has used up its numbers
  refused C3, C4        no room for another command; a POLL is not submitted
  refused C5            the session is not closed
  due MOMENT, due none  the last line: the moment of the next tick

Examples:

  $ printf 'add 5 0\\nbegin 1\\nat 400\\ntick\\nwrite\\n' | osdp panel
  due none
  due 400
  due 400
  burst
  due 600
  send 53050900046100C125
  due 600

  $ printf 'submit 1 never OUT 0:2:0\\n' | osdp panel capacity 4
  refused B4
  due none
";

const READER: &str = "osdp reader: runs a reader by lines of text

usage: osdp reader [SETTING VALUE]...

  address N       where the reader is at first, 0 to 126: 0
  vendor HEX      the maker's code, six digits: 000000
  model N         the maker's number of the model, 0 to 255: 0
  version N       the maker's number of its version, 0 to 255: 0
  serial N        the serial number: 0
  firmware A:B:C  the three numbers of the firmware's version: 0:0:0
  cap F:L:N       a capability more: its function, level and count
  room N          how many events may wait, 1 to 1024: 64
  gap MS          after how long a silence a run of bytes is over: 20
  expire MS       how old an event may become while no panel is there; 0 is without end: 0
  presence on     the lines offline and online tell whether a panel is there: off

Input: a call on each line. Another program carries the port: share/osdp/examples/reader.py is one.

  at MOMENT                the moment of the lines to come, in milliseconds
  bytes HEX                these bytes have come
  silence                  the line was silent
  tick                     no bytes have come up to this moment
  event WORD...            an event for the panel
  busy on, busy off        whether the reader is busy
  inputs HEX               a byte for each input; outputs and readers likewise
  local T P                tamper and power

Events, by their texts. docs/PROTOCOL.md has every field.

  KEYPAD READER HEX        keys; KEYPAD 0 31 is key 1
  RAW READER FORMAT N HEX  a card of N bits
  FMT READER N HEX         a card as characters, read in direction N
  ISTATR HEX               what the inputs are now, a byte for each; OSTATR, RSTATR likewise
  LSTATR T P               what tamper and power are now

Answers: before the last line of an answer stand lines like these.

  send HEX            write these bytes to the line at once
  taken X             do command X, once; nothing where the bytes sent are a NAK, whose sixth byte is 41
  again X             command X with number 0 may come again: do only what may be done twice for one order
  moved ADDRESS RATE  keep both where no loss of power takes them; then send, and set the port to this rate
  offline             with presence on: no packet was answered for 8 seconds, so no panel is there
  online              with presence on: one is answered again, or for the first time
  withdrawn EVENT     with expire: it was too old, and the panel will never get it
  in doubt EVENT      with expire: it was too old, and the panel may have got it
  refused line        no call: its name, how many words it has, or one that is no value or out of its range
  refused N2          no room for another event
  waiting N           the last line: how many events wait

Examples:

  $ printf 'bytes 530508000061003F\\n' | osdp reader address 5
  send 538513000045000000000000000000000000D0
  again ID 0
  waiting 0

  $ printf 'event KEYPAD 0 31\\n' | osdp reader
  waiting 1
";

const PLAN: &str = "osdp plan: tells how long a line takes that is planned

usage: osdp plan [SETTING VALUE]...

  readers N         how many readers are on the line, 1 to 16: 1
  rate N            how many bits pass in a second, 300 to 1000000: 9600
  check sum         the check that packets end with; check crc: crc
  longest N         how many bytes the longest packet has, 8 to 1440: 32
  answer MS         how long a reader thinks before it answers, at most: 5
  hold MS           for how long a driver, an adapter or a network holds a packet back: 0
  late MS           how late the panel's program is: 1
  orders N          how many orders of its reader wait before an order or a card, 0 to 1024: 0
  reply-wait MS     how long an answer is waited for: 200
  poll-interval MS  from an answer to the next POLL: 50
  sends N           how often a packet is sent while no answer comes, 1 to 255: 3
  busy-wait MS      from a BUSY to the next send: 50
  busy-limit N      how often a reader may answer BUSY in one exchange, 0 to 255: 20
  quiet-wait MS     how long a device is left quiet before a session opens: 400

Input: none. A byte has ten bits on the wire. The settings from reply-wait on are those of osdp panel.

Times are in milliseconds, each the longest: where all readers answer in time, where one of the others is
silent, and at worst, whatever comes from the line. Then a line for each setting that would make them shorter.

  POLL round  from a POLL of a reader to its next, while nothing else passes
  order       from an order's acceptance to its packet
  card        from a card at the reader to its report
  told lost   from the last answer of a reader that falls silent until it is told

A setting that is too short for its line is refused, with what it has to be.

Examples:

  $ osdp plan readers 16 | grep -E '^(order|card)'
  order               2386        3448      437938
  card                1291        1822           -

  $ osdp plan readers 16 rate 115200 | grep -E '^(order|card)'
  order                434        1618      437938
  card                 254         846           -
";

/// The help of a topic.
pub fn help_text(topic: Topic) -> &'static str
    ensures { IsHelpOf topic result.now }
{
    match topic {
        Topic::Program => PROGRAM,
        Topic::Show => SHOW,
        Topic::Monitor => MONITOR,
        Topic::Check => CHECK,
        Topic::Make => MAKE,
        Topic::Sim => SIM,
        Topic::Panel => PANEL,
        Topic::Reader => READER,
        Topic::Plan => PLAN,
        Topic::Test => TEST,
    }
}
