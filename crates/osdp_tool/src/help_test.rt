//! The help of the command `test`.

pub(crate) const TEST: &str =
    "osdp test: tells which rules a device keeps, by what was sent to it and what it answered

usage: osdp test [--tap]
       osdp test panel [--tap]
       osdp test script

  --tap   print the verdicts for other programs: the Test Anything Protocol
  panel   tell which rules a panel keeps, by what it sent and what the device said to it
  script  run a script of one's own, line by line

Input: lines as osdp-port PORT RATE test device ADDRESS makes them. A line that begins with # is a comment.

  device ADDRESS                        the address of the device, 0 to 126
  asks RULE MOMENT SENT DELAY READ      these bytes were sent, and these were read so many milliseconds later
  opens RULE MOMENT SENT DELAY READ     the same, and nothing is judged by it
  skips RULE WORD                       the scenario of the rule was left out
  times RULE                            the rule is judged by the times of all answers so far

The lines of a rule stand together. Each rule has one line, with ok, broken, unclear or skipped, and the last
line counts them. Silence breaks no rule. The status is 1 where a rule is broken.

Input of a panel, as osdp-port PORT RATE test panel ADDRESS makes it. The next packet judges the rule.

  device ADDRESS                        the address at which the device answers
  hears RULE MOMENT READ DELAY SAID     this was read, and then the device said this for the rule, or 0
  says DELAY SAID                       it said this too
  skips RULE WORD                       the scenario of the rule was left out

Input of a script: its lines, and after each packet that a line sends what was heard of it, as
osdp-port PORT RATE test script FILE makes them.

  device ADDRESS               the lines below are of this device
  check sum                    packets end with a checksum; or crc
  may WORD                     this may be done to it: out:N, led, buz, text, comset or mfg
  send COMMAND                 a packet with the next number: send OUT 0:2:0
  repeat                       the same packet again, with the same number
  reopen                       the next packet has number 0
  lose answer                  the answer to the next packet is passed over
  damage N                     byte N of the next packet is sent inverted
  wait MS                      nothing is sent for so long
  expect REPLY [within MS]     what the device answered: ACK, NAK, .., silence, or same as the first time
  expect REPLY from user within MS  the device is polled until its user makes it say so
  reads REPLY                  the answer begins with these data: reads NAK 4
  keep N                       byte N of the answer's data is kept
  counts M                     byte N of this answer's data is M more than the one that was kept
  heard MOMENT DELAY READ      what was read after the packet that was sent at a moment
  ready                        ready is printed

An expectation is ok, broken or unclear. Silence and BUSY break none. The status is 1 where one isn't ok,
and 2 where a line is refused: by its first word that cannot stand there, or by the word that is missing.

Examples:

  $ printf 'device 5\\nasks 4 0 530508000061003F 9 none\\n' | osdp test
  4 unclear: the answer to number 0 has number 0: nothing was heard that shows it
  rules 1 ok 0 otherwise 0 broken 0 unclear 1 skipped 0

  $ printf 'device 5\\nskips 50 --may=out:N\\n' | osdp test --tap
  ok 50 - OUT is answered by ACK or OSTATR # SKIP --may=out:N
  1..1

  $ printf 'device 5\\ncheck sum\\nsend POLL\\nheard 0 9 538507000040E1\\nexpect ACK\\n' | osdp test script
  send 53050700006041
  line 4 ok: expect ACK
  ok 1 broken 0 unclear 0
";
