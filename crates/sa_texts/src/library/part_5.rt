//! Part 6 of the files of lib/.

/// The texts of this part, each behind the words that ask for it.
pub(crate) const FILES_5: [(&str, &str, &str, &str); 3] = [
    ("fstr", "fstr.sa", "fstr.sa", FSTR),
    ("in_lines", "in_lines.sa", "in_lines.sa", IN_LINES),
    ("inti", "inti.sa", "inti.sa", INTI),
];

const FSTR: &str =
    r#"-- FSTR: a buffer of text that grows at its end. `s := s + "..."` makes a whole new text each time, and nothing that was made is given
-- back; a buffer takes room for what is put into it alone.
--
--    line ::= #FSTR;
--    loop line + 1.upto!(5) + ';'; end;
--    last ::= line.pop;
--    line + " and " + 6;
--    #OUT + line + "\n";                                      -- 1;2;3;4;5 and 6
class FSTR < $STR, $IS_EQ is
   include FLIST{CHAR};

   invariant:BOOL is return size >= 0 and size <= store.asize; end;

   -- An empty buffer that has room for n bytes at once.
   create(n:INT):SAME post result.size = 0 is buffer ::= new; buffer.store := #ARRAY{CHAR}(n.max(8)); return buffer; end;

   -- A buffer that holds a text.
   create(s:STR):SAME post result.size = s.size is return #SAME(s.size) + s; end;

   -- How many bytes are in it, which is `size` too.
   length:INT post result = size is return size; end;

   -- Puts a byte behind what is there, and gives the buffer itself.
   push(c:CHAR):SAME post size = initial(size) + 1 is push(c); return self; end;

   -- Whether nothing is in it.
   is_empty:BOOL post result = (size = 0) is return size = 0; end;

   -- Takes everything out, and keeps the room.
   clear post size = 0 is size := 0; end;

   -- Puts something behind what is there: a text, a number's decimal digits, a byte, or the text of what is below $STR. With a result
   -- it gives the buffer itself, so that one may go on: `b + "x" + 1;`.
   plus(s:STR) is put(s); end;
   plus(s:STR):SAME is put(s); return self; end;
   plus(i:INT) is put(i); end;
   plus(i:INT):SAME is put(i); return self; end;
   plus(c:CHAR) is push(c); end;
   plus(c:CHAR):SAME is push(c); return self; end;
   plus(s:$STR) is put(s.str); end;
   plus(s:$STR):SAME is put(s.str); return self; end;

   -- What is in it, as a text.
   str:STR post result.size = size is return STR::of(store, size); end;

   -- The n bytes from the place i on, as a text.
   substring(i, n:INT):STR
      pre i >= 0 and n >= 0 and i + n <= size
      post result.size = n
   is
      part ::= #ARRAY{CHAR}(n);
      loop place ::= part.ind!; part[place] := [i + place]; end;
      return STR::of(part, n);
   end;

   -- The places, from 0 on.
   ind!:INT post result >= 0 and result < size is i ::= 0; loop while!(i < size); yield i; i := i + 1; end; end;

   -- Turns the order of the bytes round.
   to_reverse post size = initial(size) is
      i ::= 0;
      loop
         while!(i < size / 2);
         other ::= size - 1 - i;
         c ::= [i]; [i] := [other]; [other] := c;
         i := i + 1;
      end;
   end;

   -- Whether the bytes are those of a text, or of another buffer.
   is_eq(s:STR):BOOL is
      if size /= s.size then return false; end;
      loop if elt! /= s.elt! then return false; end; end;
      return true;
   end;
   is_eq(other:FSTR):BOOL is
      if size /= other.size then return false; end;
      loop if elt! /= other.elt! then return false; end; end;
      return true;
   end;
   is_eq(other:$OB):BOOL is
      typecase other when FSTR then return is_eq(other); when STR then return is_eq(other); else return false; end;
   end;

   private put(s:STR) post size = initial(size) + s.size is loop push(s.elt!); end; end;

   private put(i:INT) is if i < 0 then push('-'); put_digits(i); else put_digits(-i); end; end;

   -- The digits of a number that isn't above 0: each number below 0 has an amount, and the least one has none above.
   private put_digits(i:INT) pre i <= 0 is
      if i < -9 then put_digits(i / 10); end;
      push((48 - i % 10).char);
   end;
end;
"#;

const IN_LINES: &str =
    r#"-- IN_LINES: the lines of the input, up to its end. `get_str` of IN gives the empty text for an empty line and at the end alike; here
-- the end is told. A line ends before its line feed; the last one may lack it, and bytes behind the last line feed are a line.
--
--    input ::= #IN_LINES; line:STR;
--    if input.get_line(out line) then #OUT + "The first line is " + line + ".\n"; end;
--    loop
--       line := input.elt!; #OUT + input.count + ": " + line + "\n";
--    end;
class IN_LINES is
   private include FLIST{CHAR} elt!->, aget->, aset->, pop->;

   -- What gives the bytes. IN has no objects: void of it reads the input.
   private attr input:IN;

   -- How many lines have been read.
   readonly attr count:INT;

   invariant:BOOL is return count >= 0 and size >= 0; end;

   -- What reads the lines of the input from here on.
   create:SAME post result.count = 0 is return new; end;

   -- The next line, and whether there was one: at the end it gives false.
   get_line(out line:STR):BOOL post result = (count = initial(count) + 1) is
      byte ::= input.get_byte;
      if byte < 0 then return false; end;
      size := 0;
      loop until!(byte < 0 or byte = 10); push(byte.char); byte := input.get_byte; end;
      line := STR::of(store, size);
      count := count + 1;
      return true;
   end;

   -- The lines from here on.
   elt!:STR is line:STR; loop while!(get_line(out line)); yield line; end; end;
end;
"#;

const INTI: &str =
    r#"-- INTI: whole numbers of any size. A number never changes; each operation makes a new one.
--
--    power ::= #INTI(1);
--    loop 100.times!; power := power + power; end;
--    #OUT + power + "\n";                                                 -- 1267650600228229401496703205376
--    #OUT + (#INTI("123456789012345678901234567890") * #INTI(-1000)) + "\n";      -- -123456789012345678901234567890000
--    #OUT + power.div(7) + " and " + power.mod(7) + "\n";                 -- 181092942889747057356671886482 and 2
class INTI < $STR, $IS_EQ is
   -- The digits to the base 10,000, from the lowest on; the highest isn't 0. Two digits' product, and what is carried, fit an INT.
   private attr limbs:ARRAY{INT};
   private attr is_below:BOOL;
   private const base:INT := 10000;

   invariant:BOOL is return limbs.asize > 0 or ~is_below; end;

   -- The number of an INT.
   create(i:INT):SAME is
      limbs ::= #ARRAY{INT}(3);
      rest ::= i;
      loop limbs.set!((rest % base).abs); rest := rest / base; end;
      return of(limbs, i < 0);
   end;

   -- The number of a text of decimal digits, perhaps with a sign before them. A text that is none is raised, in a sentence.
   create(s:STR):SAME is
      first ::= 0;
      if s.size > 0 and (s[0] = '-' or s[0] = '+') then first := 1; end;
      limbs ::= #ARRAY{INT}((s.size - first + 3) / 4);
      if s.size = first then raise "not a whole number: " + s; end;
      loop
         place ::= first.upto!(s.size - 1);
         if s[place] < '0' or s[place] > '9' then raise "not a whole number: " + s; end;
         limb ::= (s.size - 1 - place) / 4;
         limbs[limb] := limbs[limb] * 10 + s[place].int - '0'.int;
      end;
      return of(limbs, s[0] = '-');
   end;

   -- 1 of a number above 0, -1 of one below, and 0 of 0.
   sign:INT post result >= -1 and result <= 1 is
      if limbs.size = 0 then return 0; elsif is_below then return -1; end;
      return 1;
   end;

   -- The amount, and the number with the other sign.
   abs:SAME is return of(limbs, false); end;
   negate:SAME is return of(limbs, ~is_below); end;

   -- The sum of the two, and what is left of this number without the other.
   plus(other:SAME):SAME is
      if is_below = other.is_below then return of(sum(limbs, other.limbs), is_below);
      elsif is_less(limbs, other.limbs) then return of(rest(other.limbs, limbs), other.is_below);
      end;
      return of(rest(limbs, other.limbs), is_below);
   end;
   minus(other:SAME):SAME is return plus(other.negate); end;

   -- The product.
   times(other:SAME):SAME is
      product ::= #ARRAY{INT}(limbs.size + other.limbs.size);
      loop place ::= limbs.ind!; add_multiple(product, place, limbs[place], other.limbs); end;
      return of(product, is_below /= other.is_below);
   end;

   -- The number n times multiplied by itself.
   pow(n:INT):SAME pre n >= 0 is
      power ::= #SAME(1); square ::= self;
      loop
         if n % 2 = 1 then power := power * square; end;
         n := n / 2;
         until!(n = 0);
         square := square * square;
      end;
      return power;
   end;

   -- The quotient by a number of at most 200,000 as its amount, rounded towards zero, and what is left, with the sign of this number.
   div(by:INT):SAME pre by >= -200000 and by <= 200000 is
      quotient ::= #ARRAY{INT}(limbs.size);
      rest ::= 0;
      loop
         place ::= (limbs.size - 1).downto!(0);
         rest := rest * base + limbs[place];
         quotient[place] := rest / by.abs;
         rest := rest % by.abs;
      end;
      return of(quotient, is_below /= (by < 0));
   end;
   mod(by:INT):INT pre by >= -200000 and by <= 200000 is
      rest ::= 0;
      loop rest := (rest * base + limbs[(limbs.size - 1).downto!(0)]) % by.abs; end;
      if is_below then return -rest; end;
      return rest;
   end;

   -- Whether the two are equal, and whether this one is less.
   is_eq(other:SAME):BOOL is
      if is_below /= other.is_below or limbs.size /= other.limbs.size then return false; end;
      loop if limbs.elt! /= other.limbs.elt! then return false; end; end;
      return true;
   end;
   is_eq(other:$OB):BOOL is typecase other when INTI then return is_eq(other); else return false; end; end;
   is_lt(other:SAME):BOOL is
      if is_below /= other.is_below then return is_below;
      elsif is_below then return is_less(other.limbs, limbs);
      end;
      return is_less(limbs, other.limbs);
   end;

   -- The lesser and the greater of the two.
   min(other:SAME):SAME is if other < self then return other; end; return self; end;
   max(other:SAME):SAME is if self < other then return other; end; return self; end;

   -- The number as an INT; `overflow` where it is none. It is made below 0, where there is one more number than above.
   int:INT is
      number ::= 0;
      loop limb ::= limbs[(limbs.size - 1).downto!(0)]; number := number * base - limb; end;
      if is_below then return number; end;
      return -number;
   end;

   -- The decimal digits, with `-` in front where it is below 0.
   str:STR is
      if limbs.size = 0 then return "0"; end;
      highest ::= limbs[limbs.size - 1].str;
      if is_below then highest := "-" + highest; end;
      digits ::= #ARRAY{CHAR}(highest.size + 4 * (limbs.size - 1));
      loop digits.set!(highest.elt!); end;
      loop
         place ::= highest.size.upto!(digits.size - 1);
         behind ::= digits.size - 1 - place;
         digits[place] := ('0'.int + limbs[behind / 4] / 10.pow(behind % 4) % 10).char;
      end;
      return STR::of(digits, digits.size);
   end;

   -- The number of these limbs, without the zeros at their end. There is no 0 below 0.
   private of(limbs:ARRAY{INT}, is_below:BOOL):SAME is
      size ::= limbs.size;
      loop while!(size > 0 and limbs[size - 1] = 0); size := size - 1; end;
      number ::= new;
      number.limbs := #ARRAY{INT}(size);
      loop number.limbs.set!(limbs.elt!); end;
      number.is_below := is_below and size > 0;
      return number;
   end;

   -- The limb of a place, and 0 past the highest.
   private limb(limbs:ARRAY{INT}, place:INT):INT is
      if place < limbs.size then return limbs[place]; end;
      return 0;
   end;

   private is_less(a, b:ARRAY{INT}):BOOL is
      if a.size /= b.size then return a.size < b.size; end;
      loop
         place ::= (a.size - 1).downto!(0);
         if a[place] /= b[place] then return a[place] < b[place]; end;
      end;
      return false;
   end;

   private sum(a, b:ARRAY{INT}):ARRAY{INT} is
      sum ::= #ARRAY{INT}(a.size.max(b.size) + 1);
      carried ::= 0;
      loop
         place ::= sum.ind!;
         carried := carried + limb(a, place) + limb(b, place);
         sum[place] := carried % base;
         carried := carried / base;
      end;
      return sum;
   end;

   -- The limbs of a without b, which isn't above a.
   private rest(a, b:ARRAY{INT}):ARRAY{INT} is
      rest ::= #ARRAY{INT}(a.size);
      borrowed ::= 0;
      loop
         place ::= rest.ind!;
         left ::= a[place] - limb(b, place) - borrowed;
         if left < 0 then rest[place] := left + base; borrowed := 1; else rest[place] := left; borrowed := 0; end;
      end;
      return rest;
   end;

   -- Adds a multiple of limbs to those of a sum, from a place on.
   private add_multiple(sum:ARRAY{INT}, place, factor:INT, limbs:ARRAY{INT}) is
      carried ::= 0;
      loop
         carried := carried + sum[place] + factor * limbs.elt!;
         sum[place] := carried % base;
         carried := carried / base;
         place := place + 1;
      end;
      sum[place] := carried;
   end;
end;
"#;
