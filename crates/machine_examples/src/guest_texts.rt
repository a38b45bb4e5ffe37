//! The texts of the guests: assembly, with comments from `#` on and indented statements, which the
//! assembler itself doesn't take. A server stands before `TCP`, which all of them share.

/// Does nothing.
pub const MUTE: &str = "\
mute:
    jal x0, mute                # nothing is done for ever
";

/// Sends each byte back.
pub const ECHO: &str = "\
# echo: each byte of a connection to port 7 goes back (RFC 862).
    li x31, 0x700               # port 7, its bytes exchanged
    jal x0, start

# the new bytes are the answer, two at a time
answer:
    addi a3, x19, 0
    addi a0, x18, 0
    addi a1, x23, 54
    add a2, x18, x19
copy:
    bgeu a0, a2, copied
    lbu a5, 0(a0)
    sb a5, 0(a1)
    addi a0, a0, 1
    addi a1, a1, 1
    jal x0, copy
copied:
    jalr x0, x5, 0
";

/// Tells the time.
pub const CLOCKED: &str = "\
# clocked: a connection to port 13 is told the time once, as 16 hexadecimal digits (in the manner of RFC 867).
# Two machines that run this at different times answer differently.
    li x31, 0xD00               # port 13, its bytes exchanged
    jal x0, start

# at the first segment after the SYN the time is the answer
answer:
    addi a3, x0, 0
    lw a0, 28(x22)
    bne a0, x0, told
    addi a0, x0, 1
    sw a0, 28(x22)
    li a0, 0x200BFF8
time:
    lw a1, 4(a0)                # the high half of mtime ..
    lw a2, 0(a0)
    lw a5, 4(a0)
    bne a1, a5, time            # .. which must not change meanwhile
    addi a3, x0, 16
    addi a0, x23, 54
    addi a6, x0, 8
high:
    srli a5, a1, 28
    slli a1, a1, 4
    jal x1, digit
    addi a6, a6, -1
    bne a6, x0, high
    addi a6, x0, 8
low:
    srli a5, a2, 28
    slli a2, a2, 4
    jal x1, digit
    addi a6, a6, -1
    bne a6, x0, low
told:
    jalr x0, x5, 0

# the digit a5 to a0
digit:
    addi a7, x0, 10
    blt a5, a7, decimal
    addi a5, a5, 7
decimal:
    addi a5, a5, 48
    sb a5, 0(a0)
    addi a0, a0, 1
    jalr x0, x1, 0
";

/// Writes to the disk.
pub const DISK_LOG: &str = "\
# disk_log: what comes over a connection to port 9 is written to the disk, a payload from a new sector on, and
# `ok` is sent once it stands there. A payload of more than 512 bytes takes as many sectors as it needs, and
# the last one is filled with zeros. A full disk says nothing.
#
# Memory from 0x8001A000 on: the queue's rings, the next sector at 0x80, and a request at 0x100: its header,
# 512 bytes, its status.
    li x31, 0x900               # port 9, its bytes exchanged

# ---- the block device, and its queue of 4 descriptors
    li x3, 0x10002000
    li x2, 0x8001A000
    sw x0, 112(x3)              # Status: reset
    addi a0, x0, 1
    sw a0, 112(x3)              # ACKNOWLEDGE
    addi a0, x0, 3
    sw a0, 112(x3)              # DRIVER
    addi a0, x0, 1
    sw a0, 20(x3)
    lw a1, 16(x3)
    andi a1, a1, 1
    beq a1, x0, halt            # VERSION_1 must be offered
    sw x0, 36(x3)
    sw x0, 32(x3)
    sw a0, 36(x3)
    sw a0, 32(x3)
    addi a0, x0, 11
    sw a0, 112(x3)              # FEATURES_OK
    lw a1, 112(x3)
    andi a1, a1, 8
    beq a1, x0, halt
    addi a0, x0, 0
    addi a1, x0, 4
    addi a2, x2, 0
    addi a3, x2, 0x40
    addi a4, x2, 0x60
    jal x1, set_queue
    addi a0, x0, 1
    sh a0, 0x40(x2)             # no interrupts
# the chain: header, bytes, status
    addi a1, x2, 0x100
    sw a1, 0(x2)
    addi a2, x0, 16
    sw a2, 8(x2)
    li a3, 0x10001              # NEXT, 1
    sw a3, 12(x2)
    addi a1, a1, 16
    sw a1, 16(x2)
    addi a2, x0, 512
    sw a2, 24(x2)
    li a3, 0x20001              # NEXT, 2
    sw a3, 28(x2)
    addi a1, a1, 512
    sw a1, 32(x2)
    addi a2, x0, 1
    sw a2, 40(x2)
    addi a3, x0, 2              # WRITE
    sw a3, 44(x2)
    sw a2, 0x100(x2)            # OUT
    addi a0, x0, 15
    sw a0, 112(x3)              # DRIVER_OK
    jal x0, start

# each 512 bytes of the payload, and then `ok`
answer:
    addi a3, x0, 0
    beq x19, x0, written
    li x31, 0x10002000
    li a7, 0x8001A000
    addi a0, x18, 0             # what is left of it
    add a1, x18, x19
sector:
    lw a2, 0x80(a7)             # the next sector
    lw a4, 0x100(x31)           # how many the disk has
    bgeu a2, a4, written
    sw a2, 0x108(a7)
    sw x0, 0x10C(a7)
    addi a4, a7, 0x110
    addi a5, a4, 512
bytes:
    addi a6, x0, 0
    bgeu a0, a1, zero
    lbu a6, 0(a0)
    addi a0, a0, 1
zero:
    sb a6, 0(a4)
    addi a4, a4, 1
    bne a4, a5, bytes
    addi a4, x0, 255
    sb a4, 0x310(a7)            # no status yet
    lhu a4, 0x42(a7)
    addi a4, a4, 1
    fence
    sh a4, 0x42(a7)             # each entry of the ring is 0, the chain's
    fence
    sw x0, 80(x31)              # QueueNotify 0
    lhu a4, 0x42(a7)
served:
    lhu a5, 0x62(a7)
    bne a4, a5, served          # the disk answers in its own time
    lbu a4, 0x310(a7)
    bne a4, x0, written
    addi a2, a2, 1
    sw a2, 0x80(a7)
    bltu a0, a1, sector
    li a0, 0x6B6F               # o k
    sh a0, 54(x23)
    addi a3, x0, 2
written:
    jalr x0, x5, 0
";

/// The network device, and TCP by table.
pub const TCP: &str = "\
# A TCP server by table, over one virtio network device. It is a polling driver: it asks for no interrupts
# and looks at the used ring of the receiving queue again and again.
#
# A server gives two things before this text: its port in x31 when it goes to `start`, and `answer`, which is
# called once for each segment of an open connection. `answer` has the new bytes in order at x18, x19 of
# them, and the connection's entry at x22; it puts its answer at x23 + 54 and says its length in a3.
#
# Registers that keep their meaning:
#   x2 rings and buffers    x3 network device       x4 received frame       x6 used entries taken
#   x8 buffers given back   x9 received TCP header  x18 new bytes           x19 how many
#   x20 client's number     x21 received flags      x22 connection          x23 frame to be sent
#   x24 client address      x25 FIN taken: 0 or 1   x26 received buffer     x28 client port
# An address or a port is kept as it lies in the frame.
# Calls return through x1, calls within them through x5, and the server's own through x7.
#
# Memory: rings at x2, the port that is served at x2 + 0x500, the frame to be sent at x2 + 0x800, 16 buffers of 2,048 bytes from x2 + 0x1000 on,
# and the table of 64 connections at x2 + 0x9000. An entry is 32 bytes: state (0 free, 1 open, 2 closed),
# client address, client port, next number of the client, next own number, first own number, first number
# of the client, and a word of the server's.

# ---- the network device (virtio 1.2, 3.1.1 and 4.2.3.1)
start:
    li x3, 0x10001000
    li x2, 0x80010000
    li a1, 0x80C
    add x23, x2, a1
    sh x31, 0x500(x2)
    sw x0, 112(x3)              # Status: reset
    addi a0, x0, 1
    sw a0, 112(x3)              # ACKNOWLEDGE
    addi a0, x0, 3
    sw a0, 112(x3)              # DRIVER
    addi a0, x0, 1
    sw a0, 20(x3)               # of features 32 to 63 ..
    lw a1, 16(x3)
    andi a1, a1, 1
    beq a1, x0, halt            # .. the device must offer VERSION_1
    sw x0, 36(x3)
    sw x0, 32(x3)               # of features 0 to 31 none is taken
    sw a0, 36(x3)
    sw a0, 32(x3)               # VERSION_1 is
    addi a0, x0, 11
    sw a0, 112(x3)              # FEATURES_OK
    lw a1, 112(x3)
    andi a1, a1, 8
    beq a1, x0, halt            # the device must agree

# the receiving queue, 16 buffers; its rings are at x2, x2 + 0x100 and x2 + 0x200
    addi a0, x0, 0
    addi a1, x0, 16
    addi a2, x2, 0
    addi a3, x2, 0x100
    addi a4, x2, 0x200
    jal x1, set_queue
# the sending queue, one frame at a time; its rings are at x2 + 0x400, x2 + 0x440 and x2 + 0x480
    addi a0, x0, 1
    addi a1, x0, 1
    addi a2, x2, 0x400
    addi a3, x2, 0x440
    addi a4, x2, 0x480
    jal x1, set_queue

# each receiving descriptor: address, length 2,048, WRITE; each is available from the start
    li a1, 0x1000
    add a1, x2, a1              # the first buffer
    li a2, 2048
    addi a3, x2, 0              # the first descriptor
    addi a4, x2, 0x100          # the available ring
    addi a5, x0, 0
    addi a6, x0, 16
    addi a7, x0, 2
fill:
    sw a1, 0(a3)
    sw x0, 4(a3)
    sw a2, 8(a3)
    sw a7, 12(a3)
    slli a0, a5, 1
    add a0, a4, a0
    sh a5, 4(a0)
    add a1, a1, a2
    addi a3, a3, 16
    addi a5, a5, 1
    bne a5, a6, fill
    addi a0, x0, 1
    sh a0, 0(a4)                # no interrupts
    sh a6, 2(a4)
    sh a0, 0x440(x2)
    li a1, 0x800
    add a1, x2, a1
    sw a1, 0x400(x2)            # the one sending descriptor
    sw x0, 0x404(x2)
    sw x0, 0x40C(x2)
    addi x6, x0, 0
    addi x8, x0, 16
    addi a0, x0, 15
    sw a0, 112(x3)              # DRIVER_OK

# ---- the loop: a used entry, what it asks, and its buffer back
poll:
    lhu a0, 0x202(x2)
    beq a0, x6, poll
    fence
    andi a1, x6, 15
    slli a1, a1, 3
    add a1, x2, a1
    lw x26, 0x204(a1)           # which buffer
    lw a2, 0x208(a1)            # how many bytes
    slli a0, x26, 11
    li a1, 0x100C
    add a0, a0, a1
    add x4, x2, a0              # the frame stands after 12 bytes
    addi a0, x0, 66
    blt a2, a0, give_back       # too short for TCP
    jal x7, receive
give_back:
    andi a0, x8, 15
    slli a0, a0, 1
    add a0, x2, a0
    sh x26, 0x104(a0)
    addi x8, x8, 1
    slli x8, x8, 16
    srli x8, x8, 16
    fence
    sh x8, 0x102(x2)
    sw x0, 80(x3)               # QueueNotify 0
    addi x6, x6, 1
    slli x6, x6, 16
    srli x6, x6, 16
    jal x0, poll
halt:
    jal x0, halt

# a queue: a0 its number, a1 its size, a2 descriptors, a3 available ring, a4 used ring
set_queue:
    sw a0, 48(x3)               # QueueSel
    lw a5, 52(x3)               # QueueNumMax
    bltu a5, a1, halt
    sw a1, 56(x3)
    sw a2, 128(x3)
    sw x0, 132(x3)
    sw a3, 144(x3)
    sw x0, 148(x3)
    sw a4, 160(x3)
    sw x0, 164(x3)
    addi a5, x0, 1
    sw a5, 68(x3)               # QueueReady
    jalr x0, x1, 0

# ---- a received frame (RFC 791, 3.1; RFC 9293, 3.1); its sums were made by the network, and hold
receive:
    lhu a0, 12(x4)
    addi a1, x0, 8
    bne a0, a1, leave           # IPv4: bytes 08 00
    lbu a0, 23(x4)
    addi a1, x0, 6
    bne a0, a1, leave           # TCP
    lbu a0, 14(x4)
    andi a0, a0, 15
    slli a0, a0, 2              # IP header length
    add x9, x4, a0
    addi x9, x9, 14
    lbu a1, 16(x4)
    slli a1, a1, 8
    lbu a2, 17(x4)
    or a1, a1, a2               # total length
    sub x19, a1, a0
    lbu a2, 12(x9)
    srli a2, a2, 4
    slli a2, a2, 2              # TCP header length
    add x18, x9, a2
    sub x19, x19, a2
    lhu x28, 0(x9)
    lhu x24, 26(x4)
    lhu a1, 28(x4)
    slli a1, a1, 16
    or x24, x24, a1
    addi a0, x9, 4
    jal x1, load_word
    addi x20, a0, 0
    lbu x21, 13(x9)
    addi x25, x0, 0
    lhu a0, 2(x9)
    lhu a1, 0x500(x2)
    bne a0, a1, closed_port

# the entry of this client; x27 is one that can be taken, if any
    li a0, 0x9000
    add x22, x2, a0
    addi x27, x0, 0
    addi a1, x0, 64
find:
    lw a2, 0(x22)
    addi a3, x0, 1
    beq a2, x0, find_free
    lw a4, 4(x22)
    bne a4, x24, find_other
    lw a4, 8(x22)
    beq a4, x28, known
find_other:
    beq a2, a3, find_next       # an open one stays
find_free:
    bne x27, x0, find_next
    addi x27, x22, 0
find_next:
    addi x22, x22, 32
    addi a1, a1, -1
    bne a1, x0, find

# no entry: a SYN opens one, or is refused where 64 are open; anything else is for no connection
    andi a0, x21, 0x16
    addi a1, x0, 2
    bne a0, a1, leave
    beq x27, x0, refuse
    addi x22, x27, 0
open:
    addi a0, x0, 1
    sw a0, 0(x22)
    sw x24, 4(x22)
    sw x28, 8(x22)
    addi a0, x20, 1
    sw a0, 12(x22)
    sw x20, 24(x22)
    sw x0, 28(x22)
    li a0, 0x200BFF8
    lw a0, 0(a0)                # the low half of mtime
    sw a0, 20(x22)
    addi a0, a0, 1
    sw a0, 16(x22)
welcome:
    addi a0, x0, 0x12           # SYN and ACK
    lw a1, 20(x22)
    lw a2, 12(x22)
    addi a3, x0, 0
    addi a4, x0, 16
    jal x5, send
    jalr x0, x7, 0

# a SYN to a port that isn't served is refused
closed_port:
    andi a0, x21, 0x16
    addi a1, x0, 2
    bne a0, a1, leave
refuse:
    addi a0, x0, 0x14           # RST and ACK
    addi a1, x0, 0
    addi a2, x20, 1
    addi a3, x0, 0
    addi a4, x0, 0
    jal x5, send
leave:
    jalr x0, x7, 0

# an entry: x22
known:
    andi a0, x21, 2
    beq a0, x0, no_syn
    andi a0, x21, 0x14
    bne a0, x0, leave
    lw a0, 24(x22)
    beq a0, x20, again          # the SYN that opened it, once more
    jal x0, open                # another one: the client begins anew
again:
    lw a0, 0(x22)
    addi a1, x0, 1
    bne a0, a1, leave
    lw a0, 12(x22)
    addi a0, a0, -1
    bne a0, x20, leave          # bytes were taken since
    jal x0, welcome
no_syn:
    andi a0, x21, 4
    beq a0, x0, no_reset
    lw a0, 12(x22)
    bne a0, x20, leave          # a reset counts at the next number alone
    sw x0, 0(x22)
    jalr x0, x7, 0
no_reset:
    andi x25, x21, 1            # FIN
    add x28, x19, x25           # what the segment takes of the numbers
    lw a0, 0(x22)
    addi a1, x0, 1
    bne a0, a1, old             # after the client's FIN nothing is new
    lw a0, 12(x22)
    sub a0, a0, x20             # how much of it was taken already
    beq x28, x0, empty
    bgeu a0, x28, old
    bgeu x19, a0, trim
    addi a0, x19, 0
trim:
    add x18, x18, a0
    sub x19, x19, a0
    jal x0, take
empty:
    bne a0, x0, leave           # an acknowledgement at another number
take:
    jal x5, answer
    lw a2, 12(x22)
    add a2, a2, x19
    add a2, a2, x25
    sw a2, 12(x22)
    or a0, a3, x19
    or a0, a0, x25
    beq a0, x0, leave           # an acknowledgement alone
    addi a0, x0, 0x10           # ACK
    beq a3, x0, no_bytes
    ori a0, a0, 8               # PSH
no_bytes:
    or a0, a0, x25              # FIN
    lw a1, 16(x22)
    add a4, a1, a3
    add a4, a4, x25
    sw a4, 16(x22)
    beq x25, x0, stays
    addi a4, x0, 2
    sw a4, 0(x22)
stays:
    addi a4, x0, 16
    jal x5, send
    jalr x0, x7, 0

# a segment that was taken already, or that is ahead: its number is acknowledged again
old:
    beq x28, x0, leave
    addi a0, x0, 0x10
    lw a1, 16(x22)
    lw a2, 12(x22)
    addi a3, x0, 0
    addi a4, x0, 16
    jal x5, send
    jalr x0, x7, 0

# ---- a segment to be sent: a0 flags, a1 number, a2 acknowledgement, a3 bytes at x23 + 54, a4 window
# (16 is 4,096, its bytes exchanged). A SYN has the MSS option, 1,460, in their place. It uses a0 to a6.
send:
    addi x29, a2, 0
    addi x30, a3, 20            # TCP length
    lhu a5, 6(x4)               # to the sender's MAC
    sh a5, 0(x23)
    lhu a5, 8(x4)
    sh a5, 2(x23)
    lhu a5, 10(x4)
    sh a5, 4(x23)
    lhu a5, 0(x4)               # from the own one
    sh a5, 6(x23)
    lhu a5, 2(x4)
    sh a5, 8(x23)
    lhu a5, 4(x4)
    sh a5, 10(x23)
    addi a5, x0, 8
    sh a5, 12(x23)
    addi a5, x0, 0x45
    sh a5, 14(x23)              # version 4, header of 5 words
    sh x0, 18(x23)
    addi a5, x0, 0x40
    sh a5, 20(x23)              # don't fragment
    addi a5, x0, 0x640
    sh a5, 22(x23)              # 64 hops, TCP
    sh x0, 24(x23)
    lhu a5, 30(x4)              # addresses exchanged
    sh a5, 26(x23)
    lhu a5, 32(x4)
    sh a5, 28(x23)
    lhu a5, 26(x4)
    sh a5, 30(x23)
    lhu a5, 28(x4)
    sh a5, 32(x23)
    lhu a5, 2(x9)               # ports exchanged
    sh a5, 34(x23)
    lhu a5, 0(x9)
    sh a5, 36(x23)
    addi a5, x0, 0x50
    andi a6, a0, 2
    beq a6, x0, no_option
    addi x30, x30, 4
    addi a5, x0, 0x60
    li a6, 0x402
    sh a6, 54(x23)
    li a6, 0xB405
    sh a6, 56(x23)
no_option:
    sb a5, 46(x23)
    sb a0, 47(x23)
    sh a4, 48(x23)
    sh x0, 50(x23)
    sh x0, 52(x23)
    addi a0, x23, 38
    jal x1, store_word
    addi a0, x23, 42
    addi a1, x29, 0
    jal x1, store_word
    addi a0, x30, 20            # IP length
    srli a1, a0, 8
    sb a1, 16(x23)
    sb a0, 17(x23)
    addi a0, x23, 14
    addi a1, x0, 20
    addi a2, x0, 0
    jal x1, sum
    sh a2, 24(x23)
# TCP's sum begins with the addresses, the protocol and the length
    add a0, x23, x30
    sb x0, 34(a0)               # after an odd last byte stands 0
    srli a0, x30, 8
    slli a1, x30, 8
    or a2, a0, a1
    slli a2, a2, 16
    srli a2, a2, 16
    addi a0, x0, 0x600
    add a2, a2, a0
    addi a0, x23, 26
    addi a1, x30, 9
    andi a1, a1, -2
    jal x1, sum
    sh a2, 50(x23)
# the descriptor has 12 bytes, 34 of Ethernet and IP, and the segment
    addi a0, x30, 46
    sw a0, 0x408(x2)
    lhu a0, 0x442(x2)
    addi a0, a0, 1
    fence
    sh a0, 0x442(x2)
    fence
    addi a1, x0, 1
    sw a1, 80(x3)               # QueueNotify 1
    lhu a0, 0x442(x2)
sent:
    lhu a1, 0x482(x2)
    bne a0, a1, sent
    jalr x0, x5, 0

# the sum of a1 bytes from a0 on, an even number, added to a2: its complement in a2 (RFC 1071). It is the
# sum of words as they lie in memory, so its own bytes lie there as they must.
sum:
    add a1, a0, a1
sum_next:
    lhu a5, 0(a0)
    add a2, a2, a5
    addi a0, a0, 2
    bne a0, a1, sum_next
sum_fold:
    srli a5, a2, 16
    slli a2, a2, 16
    srli a2, a2, 16
    add a2, a2, a5
    bne a5, x0, sum_fold
    xori a2, a2, -1
    jalr x0, x1, 0

# a word of the network at a0, into a0
load_word:
    lbu a5, 0(a0)
    slli a5, a5, 24
    lbu a6, 1(a0)
    slli a6, a6, 16
    or a5, a5, a6
    lbu a6, 2(a0)
    slli a6, a6, 8
    or a5, a5, a6
    lbu a6, 3(a0)
    or a0, a5, a6
    jalr x0, x1, 0

# the word a1 as one of the network, to a0
store_word:
    srli a5, a1, 24
    sb a5, 0(a0)
    srli a5, a1, 16
    sb a5, 1(a0)
    srli a5, a1, 8
    sb a5, 2(a0)
    sb a1, 3(a0)
    jalr x0, x1, 0
";
