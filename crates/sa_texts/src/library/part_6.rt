//! Part 7 of the files of lib/.

/// The texts of this part, each behind the words that ask for it.
pub(crate) const FILES_6: [(&str, &str, &str, &str); 1] = [("ints", "ints.sa", "ints.sa", INTS)];

const INTS: &str =
    r#"-- INTS and BITS: what INT lacks. Routines and iters take the number as their first argument: `INTS::gcd(12, 18)`. Bits are those of
-- the two's complement, counted from 0 for the lowest to 31.
--
--    loop #OUT + INTS::stepto!(10, 0, -3) + " "; end;                                            -- 10 7 4 1
--    loop #OUT + INTS::sum!(1.upto!(4)) + " "; end;                                              -- 1 3 6 10
--    #OUT + INTS::gcd(12, 18) + INTS::sqrt(99) + INTS::is_even(7) + INTS::floor_mod(-7, 3) + "\n";   -- 69false2
--    #OUT + BITS::lshift(5, 3) + " " + BITS::rshift(-1, 28) + " " + BITS::bnot(0) + BITS::bcount(255) + "\n";    -- 40 15 -18
class INTS is
   -- The greatest and the least number.
   const maxint:INT := 2147483647;
   const minint:INT := -2147483647 - 1;

   -- The numbers from `start` on, up to the greatest one; so many of them; and so many from 0 on.
   up!(once start:INT):INT post result >= initial(start) is loop yield start.upto!(maxint); end; end;
   for!(once start, count:INT):INT post result >= initial(start) is loop yield start + 0.upto!(count - 1); end; end;
   times!(once count:INT):INT post result >= 0 and result < initial(count) is loop yield 0.upto!(count - 1); end; end;

   -- So many numbers from `start` on, each by so much more than the one before.
   step!(once start, count, by:INT):INT is
      number ::= start;
      loop
         round ::= 1.upto!(count);
         yield number;
         if round < count then number := number + by; end;
      end;
   end;

   -- The numbers from `start` on, each by so much more, up to `last`, or down to it where `by` is below 0.
   stepto!(once start, last, by:INT):INT pre by < 0 or by > 0 is
      number ::= start;
      loop
         if by > 0 then while!(number <= last); else while!(number >= last); end;
         yield number;
         if by > 0 then until!(number > maxint - by); else until!(number < minint - by); end;
         number := number + by;
      end;
   end;

   -- The sum, and the product, of the numbers so far.
   sum!(number:INT):INT is sum ::= 0; loop sum := sum + number; yield sum; end; end;
   product!(number:INT):INT is product ::= 1; loop product := product * number; yield product; end; end;

   -- Whether it is a multiple of 2, and whether it isn't.
   is_even(i:INT):BOOL post result = (i % 2 = 0) is return i % 2 = 0; end;
   is_odd(i:INT):BOOL post result = (i % 2 /= 0) is return i % 2 /= 0; end;

   -- 1 of a number above 0, -1 of one below, and 0 of 0.
   sign(i:INT):INT post result >= -1 and result <= 1 is
      if i > 0 then return 1; elsif i < 0 then return -1; end;
      return 0;
   end;

   -- The quotient rounded down, and what is left then, which has the sign of b.
   floor_div(a, b:INT):INT is
      if a % b /= 0 and (a < 0) /= (b < 0) then return a / b - 1; end;
      return a / b;
   end;
   floor_mod(a, b:INT):INT post result = 0 or (result < 0) = (b < 0) is
      if a % b /= 0 and (a < 0) /= (b < 0) then return a % b + b; end;
      return a % b;
   end;

   -- The greatest number that divides both; 0 of 0 and 0.
   gcd(a, b:INT):INT post result >= 0 is
      loop until!(b = 0); rest ::= a % b; a := b; b := rest; end;
      return a.abs;
   end;

   -- The least number above 0 that both divide; 0 where one of them is 0.
   lcm(a, b:INT):INT post result >= 0 is
      if a = 0 or b = 0 then return 0; end;
      return (a / gcd(a, b) * b).abs;
   end;

   -- The whole part of the square root, by Newton's way from above.
   sqrt(i:INT):INT pre i >= 0 post result * result <= i is
      root ::= i.min(46340);
      loop while!(root > 0 and root > i / root); root := (root + i / root) / 2; end;
      return root;
   end;

   -- Whether it is a prime.
   is_prime(i:INT):BOOL is
      if i < 4 then return i > 1; end;
      if i % 2 = 0 then return false; end;
      loop if i % stepto!(3, sqrt(i), 2) = 0 then return false; end; end;
      return true;
   end;
end;

class BITS is
   private const sign_bit:INT := -2147483647 - 1;
   private const others:INT := 2147483647;

   -- The number of which the bit n alone is set, for n from 0 to 30.
   private power(n:INT):INT pre n >= 0 and n <= 30 is return 2.pow(n); end;

   -- The bits turned over.
   bnot(i:INT):INT post result = -1 - i is return -1 - i; end;

   -- Whether the bit n is set.
   bit(i, n:INT):BOOL pre n >= 0 and n <= 31 is
      if n = 31 then return i < 0; end;
      return i.band(power(n)) /= 0;
   end;

   -- The number with the bit n set, and with it not set.
   set(i, n:INT):INT pre n >= 0 and n <= 31 is return i.bor(lshift(1, n)); end;
   clear(i, n:INT):INT pre n >= 0 and n <= 31 is return i.band(bnot(lshift(1, n))); end;

   -- The bits n places higher; what goes past the highest is lost, and zeros come from below.
   lshift(i, n:INT):INT pre n >= 0 and n <= 31 is
      if n = 0 then return i; end;
      shifted ::= 0;
      if n < 31 then shifted := i.band(power(31 - n) - 1) * power(n); end;
      if bit(i, 31 - n) then shifted := shifted.bor(sign_bit); end;
      return shifted;
   end;

   -- The bits n places lower; what goes past the lowest is lost, and zeros come from above.
   rshift(i, n:INT):INT pre n >= 0 and n <= 31 is
      if n = 0 then return i; end;
      shifted ::= 0;
      if n < 31 then shifted := i.band(others) / power(n); end;
      if i < 0 then shifted := shifted.bor(power(31 - n)); end;
      return shifted;
   end;

   -- The bits n places lower, with copies of the highest from above: the number divided by a power of 2, rounded down.
   arshift(i, n:INT):INT pre n >= 0 and n <= 31 is
      if i < 0 then return bnot(rshift(bnot(i), n)); end;
      return rshift(i, n);
   end;

   -- How many bits are set. Each round takes the lowest one away.
   bcount(i:INT):INT post result >= 0 and result <= 32 is
      rest ::= i.band(others); count ::= 0;
      if i < 0 then count := 1; end;
      loop until!(rest = 0); rest := rest.band(rest - 1); count := count + 1; end;
      return count;
   end;

   -- The place of the highest bit that is set, and of the lowest; -1 of 0.
   highest_bit(i:INT):INT post result >= -1 and result <= 31 is
      loop n ::= 31.downto!(0); if bit(i, n) then return n; end; end;
      return -1;
   end;
   lowest_bit(i:INT):INT post result >= -1 and result <= 31 is
      loop n ::= 0.upto!(31); if bit(i, n) then return n; end; end;
      return -1;
   end;

   -- The places of the bits that are set, from the lowest on.
   bits!(once i:INT):INT post result >= 0 and result <= 31 is
      loop n ::= 0.upto!(31); if bit(i, n) then yield n; end; end;
   end;
end;
"#;
